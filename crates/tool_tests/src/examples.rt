//! The examples are decided, and what is written of them is accepted.

use crate::calls::call_is;
use crate::scenarios::EXAMPLES;
use answer_tests::{SOUND, answer};
use std::process::Abort;
use std::test::Fail;

/// What `generate` finds of an example.
#[derive(Clone, Copy)]
pub(crate) enum Outcome {
    Run,
    Refutation,
}

impl Outcome {
    /// How an answer of this outcome begins: with its status.
    fn head(self) -> &'static str {
        match self {
            Outcome::Run => "0 ",
            Outcome::Refutation => "1 ",
        }
    }

    /// The command that checks what is written.
    fn checker(self) -> &'static str {
        match self {
            Outcome::Run => "check",
            Outcome::Refutation => "verify",
        }
    }
}

/// A file of `examples/` with its scenario `top`.
#[derive(Clone, Copy)]
pub(crate) struct Example {
    pub name: &'static str,
    pub outcome: Outcome,
    pub source: &'static str,
}

#[test]
fn examples_are_decided(rt: HostRuntime) -> Result<(), Fail> {
    let alloc = rt.alloc();
    for example in EXAMPLES.as_slice() {
        let source = example.source.as_bytes();
        let words = ["generate", "main.osc", "top"];
        let got = answer(alloc, &words, &[("main.osc", source)], SOUND)?;
        let written = got.as_str().strip_prefix(example.outcome.head());
        assert!(rt; written.is_some(), "{}: {}", example.name, got.as_str());
        let files = [
            ("main.osc", source),
            ("written", written.unwrap_or("").as_bytes()),
        ];
        let words = [example.outcome.checker(), "main.osc", "top", "written"];
        call_is(&rt, &words, &files, SOUND, "0 yes\n", example.name)?;
    }
    Ok(())
}
