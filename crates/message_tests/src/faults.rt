use crate::call::{call, call_says, message_for, message_has};
use std::alloc::{AllocError, AllocGlobal, Global};
use std::process::Abort;
use std::test::Fail;

const GENERATE: [&str; 3] = ["generate", "main.osc", "top"];

/// Sees that the message for each source begins so.
fn messages_begin(rt: &(impl Abort + AllocGlobal), rows: &[(&str, &str)]) -> Result<(), Fail> {
    for (source, front) in rows {
        let main = [("main.osc", source.as_bytes())];
        call_says(rt, &GENERATE, &main, 3, *front, "")?;
    }
    Ok(())
}

/// Sees that the message for each source is this one.
fn messages_are(rt: &(impl Abort + AllocGlobal), rows: &[(&str, &str)]) -> Result<(), Fail> {
    for (source, want) in rows {
        let called = call(rt.alloc(), &GENERATE, &[("main.osc", source.as_bytes())])?;
        assert_eq!(rt; called.status, 3);
        assert_eq!(rt; called.message.as_str(), *want);
    }
    Ok(())
}

#[test]
fn whole_messages(rt: HostRuntime) -> Result<(), Fail> {
    let rows = [
        (
            "scenario top:\n    x: int\n    keep(x in [1..2)\n",
            concat!(
                "error[201]: no file goes on with this token\n",
                "  --> main.osc:3:20\n",
                "   |\n",
                " 3 |     keep(x in [1..2)\n",
                "   |                    ^ expected `]`, the rest of the expression\n",
                "   |\n",
                "   = help: `[` isn't closed: write `]` before this place.\n",
                "   = help: `osc explain 201` tells more\n",
            ),
        ),
        (
            "scenario top:\n\tx: int\n",
            concat!(
                "error[102]: a tab in the indentation\n",
                "  --> main.osc:2:1\n",
                "   |\n",
                " 2 |     x: int\n",
                "   | ^^^^\n",
                "   |\n",
                "   = help: Indent the line with spaces. Editors can be set to write spaces for the tab\n",
                "           key.\n",
                "   = help: `osc explain 102` tells more\n",
            ),
        ),
        (
            "scenario top:\n    x: int\n    keep(x in [3..3])\nscenario top\n",
            concat!(
                "error[311]: the name is declared before\n",
                "  --> main.osc:4:10\n",
                "   |\n",
                " 4 | scenario top\n",
                "   |          ^^^\n",
                "   |\n",
                "  --> main.osc:1:10\n",
                "   |\n",
                " 1 | scenario top:\n",
                "   |          ^^^ the earlier declaration\n",
                "   |\n",
                "   = help: Give one of the two another name. To add members to a type that is there,\n",
                "           write `extend`.\n",
                "   = help: `osc explain 311` tells more\n",
            ),
        ),
    ];
    messages_are(&rt, &rows)
}

/// Messages whose beginning is compared.
#[test]
fn places_in_messages(rt: HostRuntime) -> Result<(), Fail> {
    let rows = [
        // two columns for a wide character, and one character in the count
        (
            "scenario top:\n    keep(\"漢字é\" $ 3)\n",
            concat!(
                "error[104]: no token begins with this character\n",
                "  --> main.osc:2:16\n",
                "   |\n",
                " 2 |     keep(\"漢字é\" $ 3)\n",
                "   |                  ^\n",
            ),
        ),
        // the earlier declaration stands in another file than the later one
        (
            "import osc.standard\nscenario vehicle\n",
            concat!(
                "error[311]: the name is declared before\n",
                "   --> osc:13:7\n",
                "    |\n",
                " 13 | actor vehicle:\n",
                "    |       ^^^^^^^\n",
                "    |\n",
                "   --> main.osc:2:10\n",
                "    |\n",
                "  2 | scenario vehicle\n",
                "    |          ^^^^^^^ the earlier declaration\n",
            ),
        ),
    ];
    messages_begin(&rt, &rows)
}

/// Messages of faults without an earlier or a later place, whose beginning is compared.
#[test]
fn single_places_in_messages(rt: HostRuntime) -> Result<(), Fail> {
    let rows = [
        // no declaration is earlier than this one
        (
            "scenario int\n",
            concat!(
                "error[311]: the name is declared before\n",
                "  --> main.osc:1:10\n",
                "   |\n",
                " 1 | scenario int\n",
                "   |          ^^^\n",
                "   |\n",
                "   = help: Give one",
            ),
        ),
        // the fault stands at the end of the file
        (
            "scenario tops\n",
            concat!(
                "error[324]: there is no such scenario\n",
                "  --> main.osc:2:1\n",
                "   |\n",
                " 2 |\n",
                "   | ^\n",
                "   |\n",
                "   = help: A name near `top` is `tops`.\n",
            ),
        ),
    ];
    messages_begin(&rt, &rows)
}

/// Messages that tell which declared name is near.
#[test]
fn names_that_are_near(rt: HostRuntime) -> Result<(), Fail> {
    let source =
        "enum kind: [fast, slow]\nscenario top:\n    speed: flot\n    keep(sped > 3 and xyz == 1)\n";
    let files = [("main.osc", source.as_bytes())];
    let rows = [
        (
            "fault 312 main.osc:4:10\n",
            "   = help: A name near `sped` is `speed`.\n",
        ),
        (
            "fault 312 main.osc:3:12\n",
            "   = help: A name near `flot` is `float`.\n",
        ),
    ];
    for (line, want) in rows {
        message_has(&rt, line, &files, want, "")?;
    }
    let none = message_for(rt.alloc(), "fault 312 main.osc:4:23\n", &files)?;
    assert!(rt; !none.as_str().contains("A name near"));
    Ok(())
}

/// What the message for a call of `generate` is that finds no declaration of a name of so many letters, beside a field whose name
/// has so many.
fn message_of_lengths(alloc: Global, asked: usize, declared: usize) -> Result<String, AllocError> {
    let asked = String::from_utf8_lossy(alloc, vec![in alloc; b'a'; asked]?.as_slice())?;
    let declared = String::from_utf8_lossy(alloc, vec![in alloc; b'a'; declared]?.as_slice())?;
    let source = format!(in alloc; "scenario top:\n    {declared}: int\n    keep({asked} == 1)\n")?;
    Ok(call(alloc, &GENERATE, &[("main.osc", source.as_bytes())])?.message)
}

/// Sees that a message tells of a name that isn't there, and whether it tells of one that is near, in these words.
fn is_told(rt: &impl Abort, message: &str, words: &str, is_near: bool) {
    assert!(rt; message.starts_with("error[312]: "));
    assert!(rt; message.contains(words) == is_near, "{message}");
}

/// Long names are near no other, so that their messages take no time.
#[test]
fn long_names(rt: HostRuntime) -> Result<(), Fail> {
    let rows = [
        (63, 64, true),
        (64, 63, true),
        (64, 65, false),
        (65, 64, false),
        (40_000, 39_999, false),
    ];
    for (asked, declared, is_near) in rows {
        let message = message_of_lengths(rt.alloc(), asked, declared)?;
        is_told(&rt, message.as_str(), "A name near", is_near);
    }
    Ok(())
}

/// What the message for a call of `generate` is that finds no declaration of a name, where a name near it stands behind so many.
fn message_behind(alloc: Global, count: u32) -> Result<String, AllocError> {
    let mut source = String::from_str(alloc, "enum kind: [a")?;
    for number in 1..count {
        write!(source, ", a{number}")?;
    }
    source.push_str("]\nscenario top:\n    speed: int\n    keep(sped > 3)\n")?;
    Ok(call(alloc, &GENERATE, &[("main.osc", source.as_bytes())])?.message)
}

/// Of many declared names only the first are looked at.
#[test]
fn many_names(rt: HostRuntime) -> Result<(), Fail> {
    for (count, is_near) in [(9_990, true), (10_000, false)] {
        let message = message_behind(rt.alloc(), count)?;
        is_told(&rt, message.as_str(), "is `speed`", is_near);
    }
    Ok(())
}

#[test]
fn earlier_declarations(rt: HostRuntime) -> Result<(), Fail> {
    let source = concat!(
        "enum kind: [fast, slow]\n",
        "struct one:\n",
        "    fast: int\n",
        "struct two:\n",
        "    fast: int\n",
        "extend two:\n",
        "    fast: int\n",
        "extend kind: [fast]\n",
    );
    let files = [("main.osc", source.as_bytes())];
    let rows = [
        ("fault 311 main.osc:7:5\n", "  --> main.osc:5:5\n"),
        ("fault 311 main.osc:8:15\n", "  --> main.osc:1:13\n"),
    ];
    for (line, want) in rows {
        message_has(&rt, line, &files, want, "^^^^ the earlier declaration\n")?;
    }
    Ok(())
}

#[test]
fn files_that_are_gone(rt: HostRuntime) -> Result<(), Fail> {
    let want = concat!(
        "error[311]: the name is declared before\n",
        "  --> main.osc:4:10\n",
        "   = help: Give one of the two another name. To add members to a type that is there,\n",
        "           write `extend`.\n",
        "   = help: `osc explain 311` tells more\n",
    );
    let message = message_for(rt.alloc(), "fault 311 main.osc:4:10\n", &[])?;
    assert_eq!(rt; message.as_str(), want);
    Ok(())
}

/// Puts a part behind a text so often.
fn push_times(text: &mut String, part: &str, count: u32) -> Result<(), AllocError> {
    for _ in 0..count {
        text.push_str(part)?;
    }
    Ok(())
}

/// A source with a long line.
fn long_source(alloc: Global) -> Result<String, AllocError> {
    let mut source = String::from_str(alloc, "scenario top:\n    keep(x == ")?;
    push_times(&mut source, "1 + ", 50)?;
    source.push_str("$")?;
    push_times(&mut source, " + 2", 50)?;
    source.push_str(")\n")?;
    Ok(source)
}

/// What of the line is told.
fn short_line(alloc: Global) -> Result<String, AllocError> {
    let mut want = String::from_str(alloc, " 2 | ...")?;
    push_times(&mut want, "1 + ", 15)?;
    want.push_str("$")?;
    push_times(&mut want, " + 2", 15)?;
    want.push_str("...\n   | ")?;
    push_times(&mut want, " ", 63)?;
    want.push_str("^\n")?;
    Ok(want)
}

/// A line is cut on both sides.
#[test]
fn long_lines(rt: HostRuntime) -> Result<(), Fail> {
    let source = long_source(rt.alloc())?;
    let want = short_line(rt.alloc())?;
    let main = [("main.osc", source.as_bytes())];
    let called = call(rt.alloc(), &GENERATE, &main)?;
    assert!(rt; called.message.as_str().contains(want.as_str()));
    assert!(rt; called.message.as_str().contains(" --> main.osc:2:215\n"));
    Ok(())
}
