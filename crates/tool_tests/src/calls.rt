//! Calls of `command`, and what they are to answer. Each test is a table that one of these functions goes over.

use answer_tests::{Outside, SOUND, answer};
use std::alloc::AllocGlobal;
use std::process::Abort;
use std::test::Fail;

/// Files by their names.
pub(crate) type Files<'a> = &'a [(&'a str, &'a [u8])];

/// Sees that the words have this answer. A failure tells the case.
pub(crate) fn call_is(
    rt: &(impl Abort + AllocGlobal),
    words: &[&str],
    files: Files<'_>,
    outside: Outside<'_>,
    want: &str,
    case: &str,
) -> Result<(), Fail> {
    let got = answer(rt.alloc(), words, files, outside)?;
    assert_eq!(rt; got.as_str(), want, "{case}");
    Ok(())
}

/// Sees that a line of words has this answer, over files that can be read.
pub(crate) fn line_is(
    rt: &(impl Abort + AllocGlobal),
    line: &str,
    files: Files<'_>,
    want: &str,
    case: &str,
) -> Result<(), Fail> {
    let mut words = Vec::new(rt.alloc());
    for word in line.split_whitespace() {
        words.push(word)?;
    }
    call_is(rt, words.as_slice(), files, SOUND, want, case)
}

/// Sees that a line of words has these answers over the sources, each of which is `main.osc`.
pub(crate) fn sources_are(
    rt: &(impl Abort + AllocGlobal),
    line: &str,
    rows: &[(&str, &str)],
) -> Result<(), Fail> {
    for (source, want) in rows {
        let main = [("main.osc", source.as_bytes())];
        line_is(rt, line, &main, *want, *source)?;
    }
    Ok(())
}

/// Sees that a line of words has these answers over the source `main.osc` and the texts, each of which is the file of that name.
pub(crate) fn texts_are(
    rt: &(impl Abort + AllocGlobal),
    line: &str,
    source: &str,
    name: &str,
    rows: &[(&str, &str)],
) -> Result<(), Fail> {
    for (text, want) in rows {
        let files = [("main.osc", source.as_bytes()), (name, text.as_bytes())];
        line_is(rt, line, &files, *want, *text)?;
    }
    Ok(())
}

/// Sees that each line of words over the source `main.osc` and the run `run.json` has its answer.
pub(crate) fn lines_are(
    rt: &(impl Abort + AllocGlobal),
    source: &str,
    rows: &[(&str, &str, &str)],
) -> Result<(), Fail> {
    for (line, run, want) in rows {
        let files = [
            ("main.osc", source.as_bytes()),
            ("run.json", run.as_bytes()),
        ];
        line_is(rt, *line, &files, *want, *line)?;
    }
    Ok(())
}

/// Sees that the words have these answers over a shelf whose first call fails, whose second does, and so on.
pub(crate) fn shelves_are(
    rt: &(impl Abort + AllocGlobal),
    words: &[&str],
    files: Files<'_>,
    wants: &[&str],
) -> Result<(), Fail> {
    for (call, want) in wants.iter().enumerate() {
        let fails = Outside {
            shelf_failing: &[call as u64],
            ..SOUND
        };
        call_is(rt, words, files, fails, *want, "a shelf that fails")?;
    }
    Ok(())
}

/// Sees that the answer to the words begins and ends so, and has this part.
pub(crate) fn call_has(
    rt: &(impl Abort + AllocGlobal),
    words: &[&str],
    files: Files<'_>,
    front: &str,
    part: &str,
    back: &str,
) -> Result<(), Fail> {
    let got = answer(rt.alloc(), words, files, SOUND)?;
    assert!(rt;
        has_all(got.as_str(), front, part, back),
        "{}",
        got.as_str()
    );
    Ok(())
}

/// Whether a text begins and ends so, and has this part.
fn has_all(text: &str, front: &str, part: &str, back: &str) -> bool {
    text.starts_with(front) && text.contains(part) && text.ends_with(back)
}
