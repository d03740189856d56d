//! Searches that make all their cuts.

use crate::cases::{answer_is, answer_to, answers_are, count_of};
use std::alloc::AllocGlobal;
use std::process::Abort;
use std::test::Fail;

/// Three numbers, each of which is to be one less than the next.
const CREEPING: &str = "scenario top:
    x: int
    y: int
    z: int
    keep(x == y - 1)
    keep(y == z - 1)
    keep(z == x - 1)
";

/// Each cut takes a value or some from an end of a slot.
#[test]
fn an_undecided_search(rt: HostRuntime) -> Result<(), Fail> {
    let alloc = rt.alloc();
    let line = "generate main.osc top --cuts 1000";
    let got = answer_to(alloc, line, CREEPING, "")?;
    let Some(record) = got.as_str().strip_prefix("2 ") else {
        assert!(rt; false, "it is decided");
        return Ok(());
    };
    let start = "osc-undecided 1\nslots 3\nrules 3\nroom 1000\nhigh 0 999999999\nclose 0\n";
    assert!(rt; record.starts_with(start));
    assert!(rt; record.ends_with("\nopen\nend\n"));
    assert_eq!(rt; count_of(record, b'\n'), 2006);
    let line = "verify main.osc top written";
    answer_is(&rt, line, CREEPING, record, "2 open 1000\n")
}

/// Two numbers, each of which is to be below the other, contradict each other at a glance.
#[test]
fn a_refutation_by_a_sum(rt: HostRuntime) -> Result<(), Fail> {
    let source = "scenario top:
    x: int
    y: int
    keep(x < y)
    keep(y < x)
";
    let want = "1 osc-refutation 2\nslots 2\nrules 2\nroom 0\nsum 1 0 1 1\nend\n";
    answer_is(&rt, "generate main.osc top --cuts 1", source, "", want)?;
    let record = want.strip_prefix("1 ").unwrap_or("");
    answer_is(
        &rt,
        "verify main.osc top written",
        source,
        record,
        "0 yes\n",
    )
}

/// Three numbers, each of which is to be below the next, are refuted by sums of the rules that narrowed last.
#[test]
fn a_refutation_by_sums_after_cuts(rt: HostRuntime) -> Result<(), Fail> {
    let source = "scenario top:
    x: int
    y: int
    z: int
    keep(x < y)
    keep(y < z)
    keep(z < x)
";
    let alloc = rt.alloc();
    let got = answer_to(alloc, "generate main.osc top --cuts 46", source, "")?;
    let Some(record) = got.as_str().strip_prefix("1 ") else {
        assert!(rt; false, "it is refuted");
        return Ok(());
    };
    assert!(rt; record.starts_with("osc-refutation 2\nslots 3\nrules 3\nroom 46\n"));
    assert!(rt; record.ends_with("\nsum 1 0 1 1 1 2\nend\n"));
    answer_is(
        &rt,
        "verify main.osc top written",
        source,
        record,
        "0 yes\n",
    )
}

/// A number takes two cuts.
#[test]
fn a_search_with_too_few_cuts(rt: HostRuntime) -> Result<(), Fail> {
    let source = "scenario top:
    x: int
    keep(x in [3..3])
";
    let rows = [
        (
            "generate main.osc top --cuts 1",
            source,
            "2 osc-undecided 1\nslots 1\nrules 1\nroom 1\nlow 0 2\nclose 0\nopen\nend\n",
        ),
        (
            "generate main.osc top --cuts 2",
            source,
            "0 {\"choices\":[],\"end\":0,\"form\":2,\"phases\":[],\"tick\":100,\"traces\":[],\"values\":[[\"x\",3]]}\n",
        ),
    ];
    answers_are(&rt, &rows)
}

/// Whatever the seed is, no search decides it.
#[test]
fn searches_that_are_all_undecided(rt: HostRuntime) -> Result<(), Fail> {
    let one = "generate main.osc top --cuts 1000 --seed 1";
    let last = answer_to(rt.alloc(), one, CREEPING, "")?;
    let two = "generate main.osc top --cuts 1000 --tries 2";
    answer_is(&rt, two, CREEPING, "", last.as_str())?;
    assert!(rt; last.as_str().starts_with("2 "));
    Ok(())
}

/// A number that the seed draws, and a second one that has to fit it.
const DRAWN: &str = "scenario top:
    x: int
    y: int
    keep(x in [0..99])
    keep(y in [0..99])
    keep(x * x + y * y == 4005)
";

/// Sees that the first line leaves it undecided, and that the second and the third decide it alike.
fn seeds_decide(
    rt: &(impl Abort + AllocGlobal),
    alone: &str,
    further: &str,
    tried: &str,
) -> Result<(), Fail> {
    let left = answer_to(rt.alloc(), alone, DRAWN, "")?;
    assert!(rt; left.as_str().starts_with("2 "), "{alone}");
    let want = answer_to(rt.alloc(), further, DRAWN, "")?;
    assert!(rt; want.as_str().starts_with("0 "), "{further}");
    answer_is(rt, tried, DRAWN, "", want.as_str())
}

/// The answer is that of the first seed that decides it, also after the greatest seed.
#[test]
fn a_search_that_another_seed_decides(rt: HostRuntime) -> Result<(), Fail> {
    seeds_decide(
        &rt,
        "generate main.osc top --cuts 20 --seed 1",
        "generate main.osc top --cuts 20 --seed 2",
        "generate main.osc top --cuts 20 --seed 1 --tries 100",
    )?;
    seeds_decide(
        &rt,
        "generate main.osc top --cuts 20 --seed 18446744073709551615",
        "generate main.osc top --cuts 20 --seed 0",
        "generate main.osc top --cuts 20 --seed 18446744073709551615 --tries 100",
    )
}
