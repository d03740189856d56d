//! The linear rules over exactly two slots.
ghost use Rattle.std.specs.Prelude.{◌≡◌, ◌<◌, true, length, IfOk};
ghost use Rattle.box_eval.specs.Box.{value_of};
ghost use Rattle.box_eval.specs.Rules.{IsFlat};
ghost use Rattle.linear_sums.specs.Splits.{Splits};
ghost use Rattle.linear_sums.specs.Sums.{IsClear};
ghost use Rattle.linear_sums.specs.Twos.{form_in, pair_in, two_in_order, IsKept, IsListed};

use crate::forms::gather_rule;
use crate::seen::{Seen, see_rule};
use crate::weighing::weight_by_number;
use box_eval::Flat;
use std::alloc::{AllocError, Global};

/// What is kept of a linear rule over exactly two slots: its number, and its slots in order, each with its factor.
#[derive(Debug, Clone, Copy, PartialEq, Eq)]
pub(crate) struct TwoSlots {
    pub rule: u32,
    pub one: u32,
    pub other: u32,
    pub first: i128,
    pub second: i128,
}

/// The linear rules over exactly two slots, in order. `sums` has a 0 for each slot, before and after.
pub(crate) fn listed(
    alloc: Global,
    flat: &Flat,
    sums: &mut [i128],
) -> Result<Vec<TwoSlots>, AllocError>
    requires flat { IsFlat flat.now }
    requires slots { length sums.old ≡ length flat.now.bounds.pairs }
    requires clear { IsClear sums.old }
    ensures list { IfOk result (λ list. IsListed flat.now (length flat.now.rules) list.items) }
    ensures slots { length sums.new ≡ length sums.old }
    ensures clear { IsClear sums.new }
{
    let mut list = Vec::new(alloc);
    let count = flat.rules.as_slice().len() as u32;
    for number in 0..count {
        if let Some(found) = two_slots(flat, number, sums) {
            list.push(found)?;
        }
    }
    Ok(list)
}

/// What is kept of a rule, if it is linear over exactly two slots.
fn two_slots(flat: &Flat, number: u32, sums: &mut [i128]) -> Option<TwoSlots>
    requires flat { IsFlat flat.now }
    requires there { number < length flat.now.rules }
    requires slots { length sums.old ≡ length flat.now.bounds.pairs }
    requires clear { IsClear sums.old }
    ensures found { IsKept flat.now number result }
    ensures slots { length sums.new ≡ length sums.old }
    ensures clear { IsClear sums.new }
{
    match weight_by_number(flat, number) {
        Some(_) => two_of(number, slots_seen(flat, number, sums)),
        None => None,
    }
}

/// The slots of a linear rule that have a factor.
fn slots_seen(flat: &Flat, number: u32, sums: &mut [i128]) -> Seen
    requires flat { IsFlat flat.now }
    requires there { number < length flat.now.rules }
    requires linear { (form_in flat.now number).linear ≡ true }
    requires slots { length sums.old ≡ length flat.now.bounds.pairs }
    requires clear { IsClear sums.old }
    ensures splits { Splits (form_in flat.now number).factor (value_of sums.new) result }
    ensures slots { length sums.new ≡ length sums.old }
    ensures clear { IsClear sums.new }
{
    let rule = &flat.rules.as_slice()[number as usize];
    gather_rule(rule, 1, sums);
    see_rule(rule, sums)
}

/// What is kept of a rule over the slots that were found, if they are two.
fn two_of(rule: u32, seen: Seen) -> Option<TwoSlots>
    ensures { result ≡ pair_in rule seen }
{
    match seen {
        Seen::Two {
            one,
            first,
            other,
            second,
        } => Some(in_order(rule, one, first, other, second)),
        _ => None,
    }
}

/// Two slots in order.
fn in_order(rule: u32, one: u32, first: i128, other: u32, second: i128) -> TwoSlots
    ensures { result ≡ two_in_order rule one first other second }
{
    if one < other {
        TwoSlots {
            rule,
            one,
            other,
            first,
            second,
        }
    } else {
        TwoSlots {
            rule,
            one: other,
            other: one,
            first: second,
            second: first,
        }
    }
}
