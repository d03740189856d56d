//! Shelves that fail, and sources and runs that go deep.

use crate::call::{Outside, SOUND, answer};
use crate::cases::{answer_is, answer_to, count_of};
use std::alloc::{AllocError, Global};
use std::test::Fail;

const FIRST: &str = "import \"b.osc\"
scenario top:
    x: small
";

const SECOND: &str = "import \"a.osc\"
struct small:
    n: int with:
        keep(it == 7)
";

/// What is answered when the first call of the shelf fails, the second, and so on.
const WANTED: [&str; 7] = [
    "6 shelf a.osc\n",
    "6 shelf a.osc\n",
    "6 shelf a.osc\n",
    "6 shelf b.osc\n",
    "6 shelf b.osc\n",
    "6 shelf b.osc\n",
    "0 {\"choices\":[],\"end\":0,\"form\":2,\"phases\":[],\"tick\":100,\"traces\":[],\"values\":[[\"x.n\",7]]}\n",
];

/// Two files import each other. Each has three calls: one that looks for it, and two that read.
#[test]
fn a_shelf_that_fails_at_each_call(rt: HostRuntime) -> Result<(), Fail> {
    let files = [("a.osc", FIRST.as_bytes()), ("b.osc", SECOND.as_bytes())];
    for (call, want) in WANTED.iter().enumerate() {
        let fails = Outside {
            shelf_failing: &[call as u64],
            ..SOUND
        };
        let got = answer(rt.alloc(), &["generate", "a.osc", "top"], &files, fails)?;
        assert_eq!(rt; got.as_str(), *want);
    }
    Ok(())
}

fn many_imports(alloc: Global) -> Result<String, AllocError> {
    let mut source = String::new(alloc);
    for number in 1..65 {
        write!(source, "import \"f{number}\"\n")?;
    }
    Ok(source)
}

/// The main file and 64 more.
#[test]
fn a_file_too_many(rt: HostRuntime) -> Result<(), Fail> {
    let source = many_imports(rt.alloc())?;
    let want = "3 fault 302 main.osc:64:8\n";
    answer_is(&rt, "generate main.osc top", source.as_str(), "", want)
}

/// Structs each of which holds the one before.
fn held_structs(alloc: Global) -> Result<String, AllocError> {
    let mut source = String::from_str(alloc, "struct s0:\n    n: int\n")?;
    for number in 1..1000u32 {
        write!(source, "struct s{number}:\n    n: s{}\n", number - 1)?;
    }
    write!(source, "scenario top:\n    x: s999\n")?;
    Ok(source)
}

/// `x` and a thousand times `n`.
#[test]
fn a_path_of_1001_steps(rt: HostRuntime) -> Result<(), Fail> {
    let source = held_structs(rt.alloc())?;
    let got = answer_to(rt.alloc(), "generate main.osc top", source.as_str(), "")?;
    let got = got.as_str();
    let front =
        "0 {\"choices\":[],\"end\":0,\"form\":2,\"phases\":[],\"tick\":100,\"traces\":[],\"values\":[[\"x.n.n";
    assert!(rt; got.starts_with(front), "{got}");
    assert_eq!(rt; count_of(got, b'.'), 1000);
    Ok(())
}

fn brackets(alloc: Global) -> Result<String, AllocError> {
    let mut text = String::new(alloc);
    for _ in 0..128 {
        text.push_str("[")?;
    }
    for _ in 0..128 {
        text.push_str("]")?;
    }
    Ok(text)
}

#[test]
fn a_run_of_brackets(rt: HostRuntime) -> Result<(), Fail> {
    let source = "scenario top:\n    x: int\n    keep(x in [3..3])\n";
    let text = brackets(rt.alloc())?;
    let line = "check main.osc top written";
    answer_is(&rt, line, source, text.as_str(), "5 text json\n")
}
