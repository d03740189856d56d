use crate::calls::{Files, call_has, call_is, line_is, lines_are, shelves_are, sources_are};
use answer_tests::{Outside, SOUND, one_answer, some_answer};
use std::alloc::AllocGlobal;
use std::process::Abort;
use std::test::Fail;

pub(crate) const SOURCE: &str = "scenario top:\n    x: int\n    keep(x in [3..3])\n";

pub(crate) const RUN: &str =
    "{\"choices\":[],\"end\":0,\"form\":2,\"phases\":[],\"tick\":100,\"traces\":[],\"values\":[[\"x\",3]]}\n";

const GENERATE: [&str; 3] = ["generate", "main.osc", "top"];

/// The answers to `generate main.osc top` over these sources.
pub(crate) fn answers_are(
    rt: &(impl Abort + AllocGlobal),
    rows: &[(&str, &str)],
) -> Result<(), Fail> {
    sources_are(rt, "generate main.osc top", rows)
}

#[test]
fn sources_with_a_run(rt: HostRuntime) -> Result<(), Fail> {
    let rows: [(&str, &str); 7] = [
        (
            SOURCE,
            "0 {\"choices\":[],\"end\":0,\"form\":2,\"phases\":[],\"tick\":100,\"traces\":[],\"values\":[[\"x\",3]]}\n",
        ),
        (
            "scenario top:\n    x: int\n    keep(x in [3..3])\n    y: int\n    keep(y in [0..0])\n",
            "0 {\"choices\":[],\"end\":0,\"form\":2,\"phases\":[],\"tick\":100,\"traces\":[],\"values\":[[\"x\",3],[\"y\",0]]}\n",
        ),
        (
            "scenario top:\n    int: int\n    keep(int in [0x10..016])\n    n: int\n    keep(n in [1000000000..1000000000])\n",
            "0 {\"choices\":[],\"end\":0,\"form\":2,\"phases\":[],\"tick\":100,\"traces\":[],\"values\":[[\"int\",16],[\"n\",1000000000]]}\n",
        ),
        (
            "scenario \\\ntop\\\n:\n    x: \\\n  int\n    keep(x in # one [\n  [007..7]) # two",
            "0 {\"choices\":[],\"end\":0,\"form\":2,\"phases\":[],\"tick\":100,\"traces\":[],\"values\":[[\"x\",7]]}\n",
        ),
        (
            "scenario top:\r\n    x: int\r\n    keep(x in [3..3])\r\n",
            "0 {\"choices\":[],\"end\":0,\"form\":2,\"phases\":[],\"tick\":100,\"traces\":[],\"values\":[[\"x\",3]]}\n",
        ),
        (
            "scenario top\n",
            "0 {\"choices\":[],\"end\":0,\"form\":2,\"phases\":[],\"tick\":100,\"traces\":[],\"values\":[]}\n",
        ),
        (
            "scenario other\nscenario top\n",
            "0 {\"choices\":[],\"end\":0,\"form\":2,\"phases\":[],\"tick\":100,\"traces\":[],\"values\":[]}\n",
        ),
    ];
    answers_are(&rt, &rows)
}

#[test]
fn sources_that_no_tree_spells(rt: HostRuntime) -> Result<(), Fail> {
    let rows: [(&str, &str); 7] = [
        ("scenario top:\n\tx: int\n", "3 fault 102 main.osc:2:1\n"),
        (
            "scenario top:\n        x: int\n    y: int\n",
            "3 fault 103 main.osc:3:5\n",
        ),
        (
            "scenario top:\n    x int\n    keep(x % 3)\n",
            "3 fault 104 main.osc:3:12\n",
        ),
        ("foo\n", "3 fault 201 main.osc:1:1\n"),
        (
            "scenario top:\n    x: int\n    keep(x ==\n",
            "3 fault 201 main.osc:4:1\n",
        ),
        (
            "scenario top:\n    x: int\n    keep(x in [1..2)\n",
            "3 fault 201 main.osc:3:20\n",
        ),
        (
            "scenario top:\n    y: float\n    cover(y)\n",
            "3 fault 202 main.osc:3:5\n",
        ),
    ];
    answers_are(&rt, &rows)
}

#[test]
fn sources_with_faulty_names(rt: HostRuntime) -> Result<(), Fail> {
    let rows: [(&str, &str); 6] = [
        (
            "import osc.standard\nimport lib\nscenario top:\n    x: int\n    keep(x in [3..3])\n",
            "3 fault 301 main.osc:2:8\n",
        ),
        ("scenario int\n", "3 fault 311 main.osc:1:10\n"),
        (
            "scenario top\nscenario top\n",
            "3 fault 311 main.osc:2:10\n",
        ),
        ("import lib.a\nscenario top\n", "3 fault 301 main.osc:1:8\n"),
        ("", "3 fault 324 main.osc:1:1\n"),
        (
            "scenario other:\n    x: int\n    keep(x in [3..3])\n",
            "3 fault 324 main.osc:4:1\n",
        ),
    ];
    answers_are(&rt, &rows)
}

#[test]
fn words_that_are_refused(rt: HostRuntime) -> Result<(), Fail> {
    let main = [("main.osc", SOURCE.as_bytes())];
    let rows: [&[&str]; 15] = [
        &[],
        &["generate", "main.osc"],
        &["generate", "-f", "top"],
        &["generate", "main.osc", "-s"],
        &["generate", "main.osc", "top", "--cuts", "0"],
        &["generate", "main.osc", "top", "--tries", "0"],
        &["generate", "main.osc", "top", "--tries=101"],
        &["generate", "main.osc", "top", "--tick", "9"],
        &["generate", "main.osc", "top", "--tick=1001"],
        &["flat", "main.osc", "top", "--tick=50", "--tick=50"],
        &["make", "1", "--tick=100"],
        &["--ticks=005", "generate", "main.osc"],
        &["check", "main.osc", "top"],
        &["gen", "main.osc", "top"],
        &["", "main.osc", "top"],
    ];
    for words in rows {
        call_is(&rt, words, &main, SOUND, "4 words\n", "words")?;
    }
    Ok(())
}

#[test]
fn words_that_ask_for_help(rt: HostRuntime) -> Result<(), Fail> {
    let rows: [(&[&str], &str); 4] = [
        (&["--version", "x"], "0 osc 0.1.0\n"),
        (&["help"], "0 osc reads a scenario"),
        (&["generate", "main.osc", "-h"], "0 osc generate reads"),
        (&["help", "migrate"], "0 osc migrate reads a run"),
    ];
    for (words, want) in rows {
        call_has(&rt, words, &[], want, "", "")?;
    }
    one_answer();
    some_answer();
    Ok(())
}

#[test]
fn words_of_a_file_and_a_scenario(rt: HostRuntime) -> Result<(), Fail> {
    let rows: [(&str, &str, &str); 2] = [
        ("generate none.osc top", "", "6 missing none.osc\n"),
        (
            "generate main.osc a.top --seed 7",
            "",
            "3 fault 324 main.osc:4:1\n",
        ),
    ];
    lines_are(&rt, SOURCE, &rows)
}

#[test]
fn long_files_and_bytes(rt: HostRuntime) -> Result<(), Fail> {
    let alloc = rt.alloc();
    let long = vec![in alloc; b'#'; 1_048_577]?;
    let rows: [(&[u8], &str); 3] = [
        (long.as_slice(), "6 long main.osc\n"),
        (&long[1..], "3 fault 324 main.osc:1:1048577\n"),
        (b"#\xff".as_slice(), "3 fault 101 main.osc:1:2\n"),
    ];
    for (bytes, want) in rows {
        call_is(&rt, &GENERATE, &[("main.osc", bytes)], SOUND, want, want)?;
    }
    Ok(())
}

/// A file that imports `b.osc`.
const MAIN: &str = "import \"b.osc\"\nscenario top:\n    x: int\n    keep(x in [7..7])\n";

const SEVEN: &str =
    "0 {\"choices\":[],\"end\":0,\"form\":2,\"phases\":[],\"tick\":100,\"traces\":[],\"values\":[[\"x\",7]]}\n";

/// The answers to `generate a.osc top`, where `a.osc` imports each of these sources.
fn imports_are(rt: &(impl Abort + AllocGlobal), rows: &[(&str, &str)]) -> Result<(), Fail> {
    for (second, want) in rows {
        let files = [("a.osc", MAIN.as_bytes()), ("b.osc", second.as_bytes())];
        line_is(rt, "generate a.osc top", &files, *want, *second)?;
    }
    Ok(())
}

#[test]
fn imports(rt: HostRuntime) -> Result<(), Fail> {
    let rows: [(&str, &str); 6] = [
        ("import \"a.osc\"\nscenario other\n", SEVEN),
        ("import osc.standard\n", SEVEN),
        (
            "import \"a.osc\"\nscenario top\n",
            "3 fault 311 b.osc:2:10\n",
        ),
        ("import \"c.osc\"\n", "3 fault 301 b.osc:1:8\n"),
        ("scenario $\n", "3 fault 104 b.osc:1:10\n"),
        ("struct s\n", SEVEN),
    ];
    imports_are(&rt, &rows)?;
    let words = ["generate", "a.osc", "top"];
    let alone = [("a.osc", MAIN.as_bytes())];
    call_is(
        &rt,
        &words,
        &alone,
        SOUND,
        "3 fault 301 a.osc:1:8\n",
        "alone",
    )?;
    let files = [("a.osc", MAIN.as_bytes()), ("b.osc", b"".as_slice())];
    let fails = Outside {
        shelf_failing: &[4],
        ..SOUND
    };
    call_is(&rt, &words, &files, fails, "6 shelf b.osc\n", "fails")
}

/// Sees what is written if the first call of a sink that takes a byte at a time fails, the second, and so on.
fn sinks_are(rt: &(impl Abort + AllocGlobal), main: Files<'_>) -> Result<(), Fail> {
    for call in 0..86 {
        let outside = Outside {
            sink_failing: &[call as u64],
            most: 1,
            ..SOUND
        };
        let front = str::from_utf8(&RUN.as_bytes()[..call]).unwrap_or("no text");
        let want = format!(in rt.alloc(); "7 {front}")?;
        call_is(
            rt,
            &GENERATE,
            main,
            outside,
            want.as_str(),
            "a sink that fails",
        )?;
    }
    Ok(())
}

#[test]
fn failing_outside(rt: HostRuntime) -> Result<(), Fail> {
    let main = [("main.osc", SOURCE.as_bytes())];
    shelves_are(&rt, &GENERATE, &main, &["6 shelf main.osc\n"; 3])?;
    sinks_are(&rt, &main)?;
    let ten = Outside {
        sink_failing: &[1],
        most: 10,
        room: 100,
        ..SOUND
    };
    call_is(
        &rt,
        &GENERATE,
        &main,
        ten,
        "7 {\"choices\"",
        "ten bytes a call",
    )?;
    let full = Outside { room: 0, ..SOUND };
    call_is(&rt, &GENERATE, &[], full, "7 ", "no room")
}
