//! The first pair of rules that face each other.
ghost use Rattle.std.specs.Prelude.{◌≡◌, ◌≢◌, ◌<◌, length, pos, IfOk, MatchOption};
ghost use Rattle.box_eval.specs.Rules.{IsFlat};
ghost use Rattle.linear_sums.specs.FacingPairs.{pick_of, IsFirstFacing, NoneFacing};
ghost use Rattle.linear_sums.specs.Sums.{IsClear};
ghost use Rattle.linear_sums.specs.Twos.{facing_if, AreMultiples, IsListed, IsPair, IsPartner, IsTwoSlots, NoMultiples};

use crate::multiples::{Multiples, cancel, least_multiples};
use crate::two_slots::{TwoSlots, listed};
use crate::{Facing, Pick, sum_false};
use box_eval::Flat;
use std::alloc::{AllocError, Global};

/// The first pair of rules that face each other and whose sum is false on the flat form's box: that with the least first rule,
/// and of these that with the least second. Its only error is out of memory.
///
/// It looks at each pair of the linear rules over exactly two slots, so its time grows with the square of their number. Of most
/// pairs it compares the slots alone.
pub fn facing_pair(alloc: Global, flat: &Flat) -> Result<Option<Facing>, AllocError>
    requires { IsFlat flat.now }
    ensures { IfOk result (λ o. MatchOption o (NoneFacing flat.now) (IsFirstFacing flat.now)) }
{
    let mut sums = vec![in alloc; 0; flat.bounds.pairs.as_slice().len()]?;
    let list = listed(alloc, flat, &mut sums)?;
    Ok(first_pair(flat, &list, &mut sums))
}

/// The first pair of a list of all linear rules over exactly two slots.
fn first_pair(flat: &Flat, list: &[TwoSlots], sums: &mut [i128]) -> Option<Facing>
    requires flat { IsFlat flat.now }
    requires list { IsListed flat.now (length flat.now.rules) list.now }
    requires slots { length sums.old ≡ length flat.now.bounds.pairs }
    requires clear { IsClear sums.old }
    ensures { MatchOption result (NoneFacing flat.now) (IsFirstFacing flat.now) }
{
    for place in 0..list.len() {
        if let Some(facing) = partner(flat, list, place, sums) {
            return Some(facing);
        }
    }
    None
}

/// The first pair of the rule at a place of the list.
fn partner(flat: &Flat, list: &[TwoSlots], place: usize, sums: &mut [i128]) -> Option<Facing>
    requires flat { IsFlat flat.now }
    requires list { IsListed flat.now (length flat.now.rules) list.now }
    requires there { place < length list.now }
    requires slots { length sums.old ≡ length flat.now.bounds.pairs }
    requires clear { IsClear sums.old }
    ensures found { IsPartner flat.now list.now place result }
    ensures slots { length sums.new ≡ length sums.old }
    ensures clear { IsClear sums.new }
{
    let first = &list[place];
    for later in place + 1..list.len() {
        if let Some(facing) = pair_of(flat, first, &list[later], sums) {
            return Some(facing);
        }
    }
    None
}

/// The pair of two rules, if they face each other and their sum is false. Most have other slots, or factors of the same sign.
#[inline(always)]
fn pair_of(flat: &Flat, c: &TwoSlots, d: &TwoSlots, sums: &mut [i128]) -> Option<Facing>
    requires flat { IsFlat flat.now }
    requires first { IsTwoSlots flat.now c.now }
    requires second { IsTwoSlots flat.now d.now }
    requires before { c.now.rule < d.now.rule }
    requires slots { length sums.old ≡ length flat.now.bounds.pairs }
    requires clear { IsClear sums.old }
    ensures found { IsPair flat.now c.now.rule d.now.rule result }
    ensures slots { length sums.new ≡ length sums.old }
    ensures clear { IsClear sums.new }
{
    if c.one == d.one && c.other == d.other && (c.first < 0) != (d.first < 0) {
        false_pair(flat, c, d, sums)
    } else {
        None
    }
}

/// The same of two rules over the same slots.
fn false_pair(flat: &Flat, c: &TwoSlots, d: &TwoSlots, sums: &mut [i128]) -> Option<Facing>
    requires flat { IsFlat flat.now }
    requires first { IsTwoSlots flat.now c.now }
    requires second { IsTwoSlots flat.now d.now }
    requires before { c.now.rule < d.now.rule }
    requires same_one { c.now.one ≡ d.now.one }
    requires same_other { c.now.other ≡ d.now.other }
    requires slots { length sums.old ≡ length flat.now.bounds.pairs }
    requires clear { IsClear sums.old }
    ensures found { IsPair flat.now c.now.rule d.now.rule result }
    ensures slots { length sums.new ≡ length sums.old }
    ensures clear { IsClear sums.new }
{
    match multiples(c, d) {
        Some(times) => tested(
            flat,
            pick(times.first, c.rule),
            pick(times.second, d.rule),
            sums,
        ),
        None => None,
    }
}

/// How often two rules over the same slots are taken, at least, so that no slot is left, if each may be taken so often.
fn multiples(c: &TwoSlots, d: &TwoSlots) -> Option<Multiples>
    requires first { c.now.first ≢ pos 0 }
    requires second { d.now.first ≢ pos 0 }
    ensures { MatchOption result (NoMultiples c.now d.now) (AreMultiples c.now d.now) }
{
    match least_multiples(c.first.unsigned_abs(), d.first.unsigned_abs()) {
        Some(times) => {
            if cancel(times, c.first, d.first) && cancel(times, c.second, d.second) {
                Some(times)
            } else {
                None
            }
        }
        None => None,
    }
}

/// Two picks, if their sum is false.
fn tested(flat: &Flat, first: Pick, second: Pick, sums: &mut [i128]) -> Option<Facing>
    requires flat { IsFlat flat.now }
    requires first { first.rule < length flat.now.rules }
    requires second { second.rule < length flat.now.rules }
    requires slots { length sums.old ≡ length flat.now.bounds.pairs }
    requires clear { IsClear sums.old }
    ensures found { result ≡ facing_if flat.now first second }
    ensures slots { length sums.new ≡ length sums.old }
    ensures clear { IsClear sums.new }
{
    if sum_false(flat, &[first, second], &flat.bounds, sums) {
        Some(Facing { first, second })
    } else {
        None
    }
}

fn pick(times: u32, rule: u32) -> Pick
    ensures { result ≡ pick_of times rule }
{
    Pick { times, rule }
}
