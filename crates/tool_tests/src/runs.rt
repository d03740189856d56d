use composition::{Choice, Held, Run, Span, Trace, Value};
use osc_base::{Path, Row, Sample, Step, Text};
use run_check::write_run;
use std::alloc::{AllocError, Global};
use std::test::Fail;

fn name(alloc: Global, text: &str) -> Result<Step, AllocError> {
    Ok(Step::Name(Text::copy(alloc, text)?))
}

fn path<const N: usize>(alloc: Global, steps: [Step; N]) -> Result<Path, AllocError> {
    Ok(Path {
        steps: Row::of(Vec::from_array(alloc, steps)?),
    })
}

/// A run with something in each of its lists.
fn full_run(alloc: Global) -> Result<Run, AllocError> {
    let choice = Choice {
        path: path(alloc, [name(alloc, "do")?])?,
        member: 1,
    };
    let span = Span {
        path: path(alloc, [name(alloc, "do")?, Step::Member(1)])?,
        start: 0,
        end: 4294967295,
    };
    let sample = Sample {
        lane: 1,
        position: -9223372036854775808,
        speed: 9223372036854775807,
    };
    let trace = Trace {
        path: path(alloc, [name(alloc, "ego")?])?,
        samples: Row::of(vec![in alloc; sample]?),
    };
    let text = Value {
        path: path(
            alloc,
            [name(alloc, "a")?, name(alloc, "b")?, Step::Index(0)],
        )?,
        held: Held::Chars(Text::copy(alloc, "q\"\\\u{e9}")?),
    };
    Ok(Run {
        choices: Row::of(vec![in alloc; choice]?),
        end: 5,
        phases: Row::of(vec![in alloc; span]?),
        tick: 100,
        traces: Row::of(vec![in alloc; trace]?),
        values: Row::of(vec![in alloc; text]?),
    })
}

#[test]
fn run_texts(rt: HostRuntime) -> Result<(), Fail> {
    let alloc = rt.alloc();
    let text = write_run(alloc, &full_run(alloc)?)?;
    assert_eq!(rt;
        text.as_str(),
        "{\"choices\":[[\"do\",1]],\"end\":5,\"form\":2,\"phases\":[[\"do[1]\",0,4294967295]],\"tick\":100,\"traces\":[[\"ego\",[[1,-9223372036854775808,9223372036854775807]]]],\"values\":[[\"a.b[0]\",\"q\\\"\\\\\u{e9}\"]]}\n"
    );
    let root = path(alloc, [])?;
    assert_eq!(rt; root.text(alloc)?.as_str(), ".");
    let long = path(
        alloc,
        [name(alloc, "do")?, Step::Member(0), name(alloc, "x")?],
    )?;
    assert!(rt; long.copy(alloc)? == long);
    assert!(rt; root.copy(alloc)? != long);
    Ok(())
}
