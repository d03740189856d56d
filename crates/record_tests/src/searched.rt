//! The records that the search returns, byte by byte, and what the checker says of them.
ghost use Rattle.std.specs.Prelude.{◌≤◌};
ghost use Rattle.box_eval.specs.Rules.{IsFlat};

use crate::answers::answer;
use crate::short::{are_short, have_sums};
use bound_trail::Trail;
use box_eval::Flat;
use osc_base::Row;
use outside_io::MemorySink;
use record_trees::linear_sums::Pick;
use record_trees::{Line, Record};
use refute_check::write_record;
use search_tests::{forms, is_flat};
use seeded_search::{Desk, Outcome, search};
use std::alloc::{AllocError, Global};
use std::process::Abort;
use std::test::Fail;
use wake_ring::WakeRing;

/// The record that the search returns with the seed 0, if it returns one.
fn record_of(alloc: Global, flat: &Flat, cuts: u32) -> Result<Option<Record>, AllocError>
    requires flat { IsFlat flat.now }
    requires cuts { cuts ≤ 1000000 }
{
    let desk = Desk::new(alloc, flat, cuts)?;
    let mut trail = Trail::new(alloc, &flat.bounds, cuts)?;
    let mut ring = WakeRing::new(alloc, flat.rules.as_slice().len() as u32)?;
    match search(flat, &[], desk, &mut trail, &mut ring, 0, cuts) {
        Outcome::Point(_) => Ok(None),
        Outcome::Refuted(record) | Outcome::Undecided(record) => Ok(Some(record)),
    }
}

/// Sees that the text of the record begins and ends so, has so many lines, and has this answer, over shelves that pass 1 and
/// 4,096 bytes a call.
fn is_written(
    rt: &(impl Abort + AllocGlobal),
    flat: &Flat,
    start: &[u8],
    end: &[u8],
    count: usize,
    want: &str,
) -> Result<(), Fail> {
    let alloc = rt.alloc();
    assert!(rt; is_flat(flat));
    let Some(record) = record_of(alloc, flat, 1000)? else {
        assert!(rt; false);
        return Ok(());
    };
    assert!(rt; are_short(record.lines.as_slice()));
    assert!(rt; have_sums(record.lines.as_slice(), record.picks.as_slice()));
    let mut sink = MemorySink::new(alloc, 65536, 4096, Row::new(alloc))?;
    assert_eq!(rt; write_record(&mut sink, &record), Ok(()));
    let text = sink.written();
    assert!(rt; text.starts_with(start));
    assert!(rt; text.ends_with(end));
    assert_eq!(rt; text.iter().filter(|byte| **byte == b'\n').count(), count);
    assert_eq!(rt; answer(alloc, flat, text, 1, &[])?.as_str(), want);
    assert_eq!(rt; answer(alloc, flat, text, 4096, &[])?.as_str(), want);
    Ok(())
}

/// Sees that the search refutes the form with this text.
fn is_refuted(
    rt: &(impl Abort + AllocGlobal),
    flat: &Flat,
    text: &[u8],
    count: usize,
) -> Result<(), Fail> {
    is_written(rt, flat, text, text, count, "Ok(Refuted)")
}

#[test]
fn above_3_and_below_3(rt: HostRuntime) -> Result<(), Fail> {
    let text =
        b"osc-refutation 1\nslots 1\nrules 3\nroom 3\nlow 0 -1\nclose 0\nhigh 0 5\nclose 0\nlow 0 3\nclose 1\nclose 2\nend\n";
    is_refuted(&rt, &forms::apart(rt.alloc())?, text, 12)
}

#[test]
fn a_default_that_stands(rt: HostRuntime) -> Result<(), Fail> {
    let text =
        b"osc-refutation 1\nslots 1\nrules 3\nroom 3\nlow 0 3\nclose 0\nhigh 0 9\nclose 0\nlow 0 8\nclose 1\nclose 2\nend\n";
    is_refuted(&rt, &forms::overridden(rt.alloc(), true)?, text, 12)
}

#[test]
fn above_the_greatest_number(rt: HostRuntime) -> Result<(), Fail> {
    let text = b"osc-refutation 1\nslots 1\nrules 1\nroom 0\nclose 0\nend\n";
    is_refuted(&rt, &forms::at_end(rt.alloc(), true)?, text, 6)
}

#[test]
fn every_slot_of_a_turn_is_taken(rt: HostRuntime) -> Result<(), Fail> {
    let text =
        b"osc-refutation 1\nslots 2\nrules 1\nroom 3\nlow 0 -2\nclose 0\nhigh 0 1\nclose 0\nlow 1 999999999\nclose 0\nclose 0\nend\n";
    is_refuted(&rt, &forms::no_root(rt.alloc())?, text, 12)
}

#[test]
fn each_below_the_other(rt: HostRuntime) -> Result<(), Fail> {
    let alloc = rt.alloc();
    let flat = forms::both_below(alloc)?;
    assert!(rt; is_flat(&flat));
    let Some(record) = record_of(alloc, &flat, 1000)? else {
        assert!(rt; false);
        return Ok(());
    };
    assert_eq!(rt;
        record.lines.as_slice(),
        [Line::Sum { count: 2 }].as_slice()
    );
    let picks = [Pick { times: 1, rule: 0 }, Pick { times: 1, rule: 1 }];
    assert_eq!(rt; record.picks.as_slice(), picks.as_slice());
    let text = b"osc-refutation 2\nslots 2\nrules 2\nroom 0\nsum 1 0 1 1\nend\n";
    assert_eq!(rt; answer(alloc, &flat, text, 1, &[])?.as_str(), "Ok(Refuted)");
    assert_eq!(rt;
        answer(alloc, &flat, text, 4096, &[])?.as_str(),
        "Ok(Refuted)"
    );
    Ok(())
}

#[test]
fn each_of_three_below_the_next(rt: HostRuntime) -> Result<(), Fail> {
    let start = b"osc-refutation 2\nslots 3\nrules 3\nroom 46\nhigh 0 999999999\n";
    let flat = forms::circle(rt.alloc(), 3)?;
    let end = b"\nsum 1 0 1 1 1 2\nend\n";
    is_written(&rt, &flat, start, end, 98, "Ok(Refuted)")
}

#[test]
fn each_one_less_than_the_next(rt: HostRuntime) -> Result<(), Fail> {
    let start = b"osc-undecided 1\nslots 3\nrules 3\nroom 1000\n";
    let flat = forms::creeping_circle(rt.alloc())?;
    let want = "Ok(Open { cuts: 1000 })";
    is_written(&rt, &flat, start, b"\nopen\nend\n", 2006, want)
}

#[test]
fn each_of_twenty_below_the_next(rt: HostRuntime) -> Result<(), Fail> {
    let start = b"osc-refutation 2\nslots 20\nrules 20\nroom 284\n";
    let flat = forms::circle(rt.alloc(), 20)?;
    is_written(&rt, &flat, start, b" 1 18 1 19\nend\n", 574, "Ok(Refuted)")
}
