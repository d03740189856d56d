ghost use Rattle.std.specs.Prelude.{◌≤◌};
ghost use Rattle.box_eval.specs.Rules.{IsFlat};

use crate::records::{write_point, write_record};
use crate::{forms, is_flat};
use bound_trail::Trail;
use box_eval::Flat;
use seeded_search::{Desk, Entry, Outcome, Wish, search};
use std::alloc::{AllocError, AllocGlobal, Global};
use std::process::Abort;
use std::test::Fail;
use wake_ring::WakeRing;

/// What the search answers, over a desk, a trail and a ring that are made for it.
fn answer(
    alloc: Global,
    flat: &Flat,
    plan: &[Entry],
    seed: u64,
    cuts: u32,
) -> Result<Outcome, AllocError>
    requires flat { IsFlat flat.now }
    requires cuts { cuts ≤ 1000000 }
{
    let desk = Desk::new(alloc, flat, cuts)?;
    let mut trail = Trail::new(alloc, &flat.bounds, cuts)?;
    let mut ring = WakeRing::new(alloc, flat.rules.as_slice().len() as u32)?;
    Ok(search(flat, plan, desk, &mut trail, &mut ring, seed, cuts))
}

/// The answer without a plan as text, with the first lines of a record up to a number of them.
fn told(
    rt: &impl Abort,
    alloc: Global,
    flat: &Flat,
    seed: u64,
    cuts: u32,
    most: usize,
) -> Result<String, Fail>
    requires { cuts ≤ 1000000 }
{
    told_by(rt, alloc, flat, &[], seed, cuts, most)
}

/// The answer by a plan.
fn told_by(
    rt: &impl Abort,
    alloc: Global,
    flat: &Flat,
    plan: &[Entry],
    seed: u64,
    cuts: u32,
    most: usize,
) -> Result<String, Fail>
    requires { cuts ≤ 1000000 }
{
    assert!(rt; is_flat(flat));
    let mut text = String::new(alloc);
    match answer(alloc, flat, plan, seed, cuts)? {
        Outcome::Point(point) => write_point(&mut text, &point)?,
        Outcome::Refuted(record) => write_record(&mut text, &record, most)?,
        Outcome::Undecided(record) => write_record(&mut text, &record, most)?,
    }
    Ok(text)
}

/// Sees that the answer without a plan, for the seed 0, is this text.
fn is_told(
    rt: &(impl Abort + AllocGlobal),
    flat: Flat,
    cuts: u32,
    most: usize,
    want: &str,
) -> Result<(), Fail>
    requires { cuts ≤ 1000000 }
{
    let text = told(rt, rt.alloc(), &flat, 0, cuts, most)?;
    assert_eq!(rt; text.as_str(), want);
    Ok(())
}

#[test]
fn above_3_and_below_3(rt: HostRuntime) -> Result<(), Fail> {
    let want = "refuted 1 3 3 7\nlow 0 -1\nclose 0\nhigh 0 5\nclose 0\nlow 0 3\nclose 1\nclose 2\n";
    is_told(&rt, forms::apart(rt.alloc())?, 1000, 9, want)
}

#[test]
fn a_default_that_stands(rt: HostRuntime) -> Result<(), Fail> {
    let want = "refuted 1 3 3 7\nlow 0 3\nclose 0\nhigh 0 9\nclose 0\nlow 0 8\nclose 1\nclose 2\n";
    is_told(&rt, forms::overridden(rt.alloc(), true)?, 1000, 9, want)
}

#[test]
fn a_default_that_is_overridden(rt: HostRuntime) -> Result<(), Fail> {
    let want = "point\n5\n";
    is_told(&rt, forms::overridden(rt.alloc(), false)?, 1000, 9, want)
}

#[test]
fn each_below_the_other(rt: HostRuntime) -> Result<(), Fail> {
    let want = "refuted 2 2 0 1\nsum 2\n1 of 0\n1 of 1\n";
    is_told(&rt, forms::both_below(rt.alloc())?, 1000, 8, want)
}

/// No two of the three rules face each other. Their sum is found at the 16th narrowing of a slot.
#[test]
fn each_below_the_next(rt: HostRuntime) -> Result<(), Fail> {
    let want =
        "refuted 3 3 46 93\nhigh 0 999999999\nclose 0\nlow 1 -1000000000\nclose 0\nhigh 1 999999999\nclose 1\nlow 2 -999999999\nclose 1\n1 of 0\n1 of 1\n1 of 2\n";
    is_told(&rt, forms::circle(rt.alloc(), 3)?, 1000, 8, want)
}

/// Each cut takes one value away, so the search goes on to its last cut.
#[test]
fn each_one_less_than_the_next(rt: HostRuntime) -> Result<(), Fail> {
    let want =
        "undecided 3 3 1000 2001\nhigh 0 999999999\nclose 0\nlow 1 -1000000000\nclose 0\nhigh 1 999999999\nclose 1\nlow 2 -999999999\nclose 1\n";
    is_told(&rt, forms::creeping_circle(rt.alloc())?, 1000, 8, want)
}

/// The sum has a rule over three slots and one over one.
#[test]
fn no_time_between(rt: HostRuntime) -> Result<(), Fail> {
    let want = "refuted 3 3 33 67\n1 of 0\n1 of 1\n1 of 2\n";
    is_told(&rt, forms::ends_as_it_starts(rt.alloc())?, 1000, 0, want)
}

#[test]
fn twenty_in_a_circle(rt: HostRuntime) -> Result<(), Fail> {
    let flat = forms::circle(rt.alloc(), 20)?;
    let text = told(&rt, rt.alloc(), &flat, 0, 1000, 0)?;
    assert!(rt;
        text.as_str()
            .starts_with("refuted 20 20 284 569\n1 of 0\n1 of 1\n")
    );
    assert!(rt; text.as_str().ends_with("\n1 of 18\n1 of 19\n"));
    Ok(())
}

#[test]
fn the_greatest_number(rt: HostRuntime) -> Result<(), Fail> {
    let want = "point\n1000000000\n";
    is_told(&rt, forms::at_end(rt.alloc(), false)?, 1000, 9, want)
}

#[test]
fn above_the_greatest_number(rt: HostRuntime) -> Result<(), Fail> {
    let want = "refuted 1 1 0 1\nclose 0\n";
    is_told(&rt, forms::at_end(rt.alloc(), true)?, 1000, 9, want)
}

#[test]
fn every_slot_of_a_turn_is_taken(rt: HostRuntime) -> Result<(), Fail> {
    let want =
        "refuted 2 1 3 7\nlow 0 -2\nclose 0\nhigh 0 1\nclose 0\nlow 1 999999999\nclose 0\nclose 0\n";
    is_told(&rt, forms::no_root(rt.alloc())?, 1000, 9, want)
}

/// The first two numbers of the stream of ChaCha with 8 rounds, made of the words 0 and 1 and of the words 2 and 3, were worked out
/// apart from this repository. For the seed 0 they leave 2 and 3 by 4, and pick the values 352,719 and 172,063.
#[test]
fn decisions_are_drawn_by_the_seed(rt: HostRuntime) -> Result<(), Fail> {
    let flat = forms::at_either_end(rt.alloc())?;
    for (seed, cuts, want) in [
        (
            0,
            3,
            "undecided 2 2 3 7\nlow 0 352719\nhigh 0 0\nclose 0\nhigh 1 172063\nopen\nopen\nopen\n",
        ),
        (
            1,
            3,
            "undecided 2 2 3 7\nhigh 0 956851\nlow 0 999999\nclose 0\nlow 1 529807\nopen\nopen\nopen\n",
        ),
        (
            258,
            2,
            "undecided 2 2 2 5\nlow 0 0\nlow 1 855400\nopen\nopen\nopen\n",
        ),
        (18_446_744_073_709_551_615, 3, "point\n1000000\n0\n"),
    ] {
        assert!(rt; cuts <= 1_000_000);
        assert_eq!(rt; told(&rt, rt.alloc(), &flat, seed, cuts, 9)?.as_str(), want);
    }
    Ok(())
}

/// The plan has the second slot alone, of which nothing is wished. So the first number is that slot's.
#[test]
fn a_plan_orders_the_slots(rt: HostRuntime) -> Result<(), Fail> {
    let flat = forms::at_either_end(rt.alloc())?;
    let plan = [Entry {
        slot: 1,
        wish: Wish::Free,
    }];
    let text = told_by(&rt, rt.alloc(), &flat, plan.as_slice(), 0, 3, 9)?;
    assert_eq!(rt;
        text.as_str(),
        "undecided 2 2 3 7\nlow 1 352719\nhigh 1 0\nclose 1\nhigh 0 172063\nopen\nopen\nopen\n"
    );
    Ok(())
}

/// The cut is in the middle of the multiples of 1,000. The first number is even, so the part below comes first.
#[test]
fn a_plan_wishes_for_values(rt: HostRuntime) -> Result<(), Fail> {
    let flat = forms::at_either_end(rt.alloc())?;
    let plan = [Entry {
        slot: 0,
        wish: Wish::Even { step: 1000 },
    }];
    let text = told_by(&rt, rt.alloc(), &flat, plan.as_slice(), 0, 1, 9)?;
    assert_eq!(rt;
        text.as_str(),
        "undecided 2 2 1 3\nlow 0 500999\nopen\nopen\n"
    );
    Ok(())
}
