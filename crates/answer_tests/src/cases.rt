//! Scenarios, and what all commands are to say of them.

use crate::call::{SOUND, answer};
use std::alloc::{AllocError, Global};
use std::process::Abort;
use std::test::Fail;

/// A source with its scenario `top`.
#[derive(Clone, Copy)]
pub(crate) struct Case {
    pub source: &'static str,
    /// The setting, as words.
    pub setting: &'static str,
    /// The answer of `generate`.
    pub wanted: Wanted,
}

/// An answer: a status and a text.
#[derive(Clone, Copy)]
pub(crate) enum Wanted {
    /// A run without choices, phases and vehicles, which has these values.
    Values(&'static str),
    /// This answer.
    Whole(&'static str),
    /// An answer that begins and ends so, and has so many lists.
    Ends(&'static str, &'static str, usize),
}

impl Wanted {
    fn is_met(self, alloc: Global, got: &str) -> Result<bool, AllocError> {
        Ok(match self {
            Wanted::Values(values) => {
                let run = format!(in alloc;
                    "0 {{\"choices\":[],\"end\":0,\"form\":2,\"phases\":[],\"tick\":100,\"traces\":[],\"values\":{values}}}\n"
                )?;
                got == run.as_str()
            }
            Wanted::Whole(text) => got == text,
            Wanted::Ends(front, back, lists) => {
                got.starts_with(front) && got.ends_with(back) && count_of(got, b'[') == lists
            }
        })
    }
}

/// How often a byte stands in a text.
pub(crate) fn count_of(text: &str, byte: u8) -> usize {
    text.as_bytes().iter().filter(|it| **it == byte).count()
}

/// The answer to a line of words over `main.osc` and `written`.
pub(crate) fn answer_to(
    alloc: Global,
    line: &str,
    source: &str,
    written: &str,
) -> Result<String, AllocError> {
    let mut words = Vec::new(alloc);
    for word in line.split_whitespace() {
        words.push(word)?;
    }
    let files = [
        ("main.osc", source.as_bytes()),
        ("written", written.as_bytes()),
    ];
    answer(alloc, words.as_slice(), &files, SOUND)
}

/// The answer to a command about the case, such as `flat`, or `check` of what is written.
fn said(alloc: Global, command: &str, case: &Case, written: &str) -> Result<String, AllocError> {
    let file = if written.is_empty() { "" } else { "written" };
    let line = format!(in alloc; "{command} main.osc top {file} {}", case.setting)?;
    answer_to(alloc, line.as_str(), case.source, written)
}

/// Whether the checker of runs or of records accepts the answer of `generate`.
fn is_accepted(alloc: Global, case: &Case, got: &str) -> Result<bool, AllocError> {
    let (command, written) = match got.strip_prefix("0 ") {
        Some(run) => ("check", run),
        None => ("verify", got.strip_prefix("1 ").unwrap_or("")),
    };
    let checked = said(alloc, command, case, written)?;
    Ok(checked.as_str() == "0 yes\n")
}

/// Whether `flat` lists slots.
fn is_listed(alloc: Global, case: &Case) -> Result<bool, AllocError> {
    let listing = said(alloc, "flat", case, "")?;
    Ok(listing.as_str().starts_with("0 slots "))
}

/// Sees that `generate` gives the answer, that what it wrote is accepted, and that `flat` has a listing.
fn case_holds(rt: &(impl Abort + AllocGlobal), case: &Case) -> Result<(), Fail> {
    let alloc = rt.alloc();
    let got = said(alloc, "generate", case, "")?;
    assert!(rt;
        case.wanted.is_met(alloc, got.as_str())?,
        "{}",
        got.as_str()
    );
    assert!(rt; is_accepted(alloc, case, got.as_str())?, "{}", case.source);
    assert!(rt; is_listed(alloc, case)?, "{}", case.source);
    Ok(())
}

/// Sees that each case holds.
pub(crate) fn cases_hold(rt: &(impl Abort + AllocGlobal), cases: &[Case]) -> Result<(), Fail> {
    for case in cases {
        case_holds(rt, case)?;
    }
    Ok(())
}

/// Sees that a line of words over `main.osc` and `written` has this answer.
pub(crate) fn answer_is(
    rt: &(impl Abort + AllocGlobal),
    line: &str,
    source: &str,
    written: &str,
    want: &str,
) -> Result<(), Fail> {
    let got = answer_to(rt.alloc(), line, source, written)?;
    assert_eq!(rt; got.as_str(), want, "{line}: {written}");
    Ok(())
}

/// Sees that each line of words over a source has its answer.
pub(crate) fn answers_are(
    rt: &(impl Abort + AllocGlobal),
    rows: &[(&str, &str, &str)],
) -> Result<(), Fail> {
    for (line, source, want) in rows {
        answer_is(rt, *line, *source, "", *want)?;
    }
    Ok(())
}
