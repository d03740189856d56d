//! Whether a flat form that was made by hand may be searched.
ghost use Rattle.std.specs.Prelude.{◌≡◌, ◌≤◌, ◌^◌, ◌<◌, max, ◌+◌, ◌*◌, ℕ, length, slice_get, Some, IsTrue, IfSome, Option, ◌≤ℤ◌, unsigned_abs};
ghost use Rattle.box_eval.specs.declared.rule.Rule.{Rule};
ghost use Rattle.box_eval.specs.Bounded.{rule_bound, term_bound};
ghost use Rattle.box_eval.specs.Reach.{slot_bound, term_slot_bound};
ghost use Rattle.box_eval.specs.Rules.{IsFlat};
ghost use Rattle.search_tests.specs.Small.{IsSum, IsProduct, IsGreater, IsSmall, AreSmall, IsSmallRule, AreSmallRules};

use box_eval::{Flat, Pair, Rule, Term};

/// The greatest magnitude of an end of a slot.
const MOST: u64 = 1_000_000_000;

/// The sum of two bounds, if there are both and it fits.
fn plus(a: Option<u64>, b: Option<u64>) -> Option<u64>
    ensures { IsSum a b result }
{
    match (a, b) {
        (Some(x), Some(y)) => x.checked_add(y),
        _ => None,
    }
}

/// The product of two bounds, if there are both and it fits.
fn product(a: Option<u64>, b: Option<u64>) -> Option<u64>
    ensures { IsProduct a b result }
{
    match (a, b) {
        (Some(x), Some(y)) => x.checked_mul(y),
        _ => None,
    }
}

/// The greater of two bounds, if there are both.
fn greater(a: Option<u64>, b: Option<u64>) -> Option<u64>
    ensures { IsGreater a b result }
{
    match (a, b) {
        (Some(x), Some(y)) => Some(x.max(y)),
        _ => None,
    }
}

/// A bound on the numbers within a rule, where no end is greater than `MOST` in magnitude.
#[cycle(bounds)]
fn bound_of(rule: &Rule) -> Option<u64>
    ensures { IfSome result (λ b. b ≡ rule_bound 1000000000 rule.now) }
{
    match rule {
        Rule::Always => Some(0),
        Rule::Below(a, b) => greater(term_bound(a), term_bound(b)),
        Rule::AtMost(a, b) => greater(term_bound(a), term_bound(b)),
        Rule::Equal(a, b) => greater(term_bound(a), term_bound(b)),
        Rule::Differ(a, b) => greater(term_bound(a), term_bound(b)),
        Rule::Both(a, b) => greater(bound_of(a.get()), bound_of(b.get())),
        Rule::Either(a, b) => greater(bound_of(a.get()), bound_of(b.get())),
        Rule::Not(a) => bound_of(a.get()),
    }
}

/// A bound on the numbers within a term.
#[cycle(bounds)]
fn term_bound(term: &Term) -> Option<u64>
    ensures { IfSome result (λ b. b ≡ term_bound 1000000000 term.now) }
{
    match term {
        Term::Whole(number) => whole_bound(*number),
        Term::Slot(_) => Some(MOST),
        Term::Sum(a, b) => plus(term_bound(a.get()), term_bound(b.get())),
        Term::Less(a, b) => plus(term_bound(a.get()), term_bound(b.get())),
        Term::Times(a, b) => product(term_bound(a.get()), term_bound(b.get())),
        Term::Truth(rule) => greater(Some(1), bound_of(rule.get())),
    }
}

/// A bound on a whole number, if it is at most `MOST` in magnitude.
fn whole_bound(number: i128) -> Option<u64>
    ensures { IfSome result (λ b. b ≡ max 1 (unsigned_abs number)) }
{
    if number > 1_000_000_000 || number < -1_000_000_000 {
        return None;
    }
    Some((number as i64).unsigned_abs().max(1))
}

/// A number that each slot of a rule is below.
#[cycle(slots)]
fn slots_below(rule: &Rule) -> u64
    ensures { result ≡ slot_bound rule.now }
{
    match rule {
        Rule::Always => 0,
        Rule::Below(a, b) => term_slots_below(a).max(term_slots_below(b)),
        Rule::AtMost(a, b) => term_slots_below(a).max(term_slots_below(b)),
        Rule::Equal(a, b) => term_slots_below(a).max(term_slots_below(b)),
        Rule::Differ(a, b) => term_slots_below(a).max(term_slots_below(b)),
        Rule::Both(a, b) => slots_below(a.get()).max(slots_below(b.get())),
        Rule::Either(a, b) => slots_below(a.get()).max(slots_below(b.get())),
        Rule::Not(a) => slots_below(a.get()),
    }
}

/// A number that each slot of a term is below.
#[cycle(slots)]
fn term_slots_below(term: &Term) -> u64
    ensures { result ≡ term_slot_bound term.now }
{
    match term {
        Term::Whole(_) => 0,
        Term::Slot(slot) => u64::from(*slot) + 1,
        Term::Sum(a, b) => term_slots_below(a.get()).max(term_slots_below(b.get())),
        Term::Less(a, b) => term_slots_below(a.get()).max(term_slots_below(b.get())),
        Term::Times(a, b) => term_slots_below(a.get()).max(term_slots_below(b.get())),
        Term::Truth(rule) => slots_below(rule.get()),
    }
}

/// Whether a pair is in order, and none of its ends is greater than `MOST` in magnitude.
fn is_small(pair: Pair) -> bool
    ensures { IsTrue result → IsSmall pair }
{
    pair.low <= pair.high && pair.low >= -1_000_000_000 && pair.high <= 1_000_000_000
}

/// Whether each pair is small.
fn are_small(pairs: &[Pair]) -> bool
    ensures { IsTrue result → AreSmall pairs.now }
{
    for pair in pairs {
        if !is_small(*pair) {
            return false;
        }
    }
    true
}

/// Whether a rule has slots below a number alone, and a bound.
fn is_small_rule(rule: &Rule, slots: usize) -> bool
    ensures { IsTrue result → IsSmallRule slots rule.now }
{
    match bound_of(rule) {
        Some(_) => slots_below(rule) <= slots as u64,
        None => false,
    }
}

/// Whether each rule is small.
fn are_small_rules(rules: &[Rule], slots: usize) -> bool
    ensures { IsTrue result → AreSmallRules rules.now slots }
{
    for rule in rules {
        if !is_small_rule(rule, slots) {
            return false;
        }
    }
    true
}

/// Whether a flat form is one whose numbers are known to stay small enough.
pub fn is_flat(flat: &Flat) -> bool
    ensures { IsTrue result → IsFlat flat.now }
{
    let pairs = flat.bounds.pairs.as_slice();
    let rules = flat.rules.as_slice();
    if pairs.len() > 1_000_000 || rules.len() > 1_000_000 {
        return false;
    }
    are_small(pairs) && are_small_rules(rules, pairs.len())
}
