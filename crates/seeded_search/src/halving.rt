//! The longest first part of a cut on which a rule is false, found by a guess, and by halving where it fails.
ghost use Rattle.std.specs.Prelude.{◌≡◌, ℕ, ◌+◌, ◌<◌, ◌≤◌, ◌≤ℤ◌, ◌<ℤ◌, length, slice_set, IfSome, MatchOption};
ghost use Rattle.box_eval.specs.Box.{pair, low_at, high_at, IsBox, cut_at};
ghost use Rattle.box_eval.specs.Verdict.{verdict_of};
ghost use Rattle.box_eval.specs.Rules.{CanJudge};
ghost use Rattle.search_laws.specs.record_trees.Record.{is_false};
ghost use Rattle.search_laws.specs.record_trees.Guided.{IsDeadEnd};
ghost use Rattle.bound_trail.specs.History.{present};
ghost use Rattle.seeded_search.specs.Probe.{IsProbe, IsPartOf};
ghost use Rattle.search_laws.specs.Halves.{value_at, first_pair, width, part_of, IsHalved};

use crate::guessing::guess;
use bound_trail::Trail;
use box_eval::{Ends, Pair, Rule, Side, Verdict, judge};

/// The present box of a trail with a slot at other ends.
#[derive(Drop)]
struct Narrowed<'a> {
    trail: &'a Trail,
    slot: u32,
    pair: Pair,
}

impl Ends for Narrowed<'_> {
    ghost use Rattle.std.specs.Prelude.{slice_set};
    ghost use Rattle.bound_trail.specs.History.{present};

    ghost ends = { λ n. slice_set (present n.trail.now) n.slot n.pair };

    fn len(&self) -> u32 {
        self.trail.len()
    }

    fn low(&self, slot: u32) -> i64 {
        if slot == self.slot {
            self.pair.low
        } else {
            self.trail.low(slot)
        }
    }

    fn high(&self, slot: u32) -> i64 {
        if slot == self.slot {
            self.pair.high
        } else {
            self.trail.high(slot)
        }
    }
}

/// The value of the cut whose first part has so many values of the slot.
fn value_of(side: Side, ends: Pair, count: u64) -> i64
    requires { IsPartOf ends count }
    ensures { result ≡ value_at side ends.low ends.high count }
{
    match side {
        Side::Low => (i128::from(ends.low) + i128::from(count) - 1) as i64,
        Side::High => (i128::from(ends.high) - i128::from(count)) as i64,
    }
}

/// The ends of the slot in the first part of the cut at a value.
fn first_pair(side: Side, ends: Pair, value: i64) -> Pair
    requires { value <ℤ ends.high }
    ensures { result ≡ first_pair side ends value }
{
    match side {
        Side::Low => Pair {
            low: ends.low,
            high: value,
        },
        Side::High => Pair {
            low: value + 1,
            high: ends.high,
        },
    }
}

/// The ends of the slot in the first part that has so many values of it.
fn part_pair(side: Side, ends: Pair, count: u64) -> Pair
    requires { IsPartOf ends count }
    ensures { result ≡ first_pair side ends (value_at side ends.low ends.high count) }
{
    first_pair(side, ends, value_of(side, ends, count))
}

/// The present ends of a slot.
pub(crate) fn ends_of(trail: &Trail, slot: u32) -> Pair
    requires { slot < length (present trail.now) }
    ensures { result ≡ pair (low_at (present trail.now) slot) (high_at (present trail.now) slot) }
{
    Pair {
        low: trail.low(slot),
        high: trail.high(slot),
    }
}

/// Whether a rule is false on the first part that has so many values of the slot, which has these ends.
fn is_false_on(rule: &Rule, trail: &Trail, slot: u32, side: Side, ends: Pair, count: u64) -> bool
    requires probe { IsProbe (present trail.now) rule.now slot }
    requires ends { ends ≡ pair (low_at (present trail.now) slot) (high_at (present trail.now) slot) }
    requires part { IsPartOf (pair (low_at (present trail.now) slot) (high_at (present trail.now) slot)) count }
    ensures { result ≡ is_false (verdict_of (part_of side (present trail.now) slot count) rule.now) }
{
    let pair = part_pair(side, ends, count);
    matches_false(judge(rule, &Narrowed { trail, slot, pair }))
}

/// Whether a verdict is false.
fn matches_false(verdict: Verdict) -> bool
    ensures { result ≡ is_false verdict }
{
    match verdict {
        Verdict::False => true,
        _ => false,
    }
}

/// The value of the cut of a slot whose first part is the longest on which a rule is false.
///
/// There is none if the slot has one value, or if the rule isn't false where the slot is fixed at the end of that side.
pub(crate) fn longest(rule: &Rule, trail: &Trail, slot: u32, side: Side) -> Option<i64>
    requires { IsProbe (present trail.now) rule.now slot }
    ensures { MatchOption result (¬ IsDeadEnd (present trail.now) rule.now side slot)
        (λ v. (count : ℕ) × (v ≡ value_at side (low_at (present trail.now) slot) (high_at (present trail.now) slot) count)
        × IsHalved (present trail.now) rule.now slot side count count) }
{
    let ends = ends_of(trail, slot);
    if ends.low == ends.high || !is_false_on(rule, trail, slot, side, ends, 1) {
        return None;
    }
    let count = halved(rule, trail, slot, side, ends);
    Some(value_of(side, ends, count))
}

/// The number of values of the slot, which has these ends, in that part. The rule is false on the part with one value.
fn halved(rule: &Rule, trail: &Trail, slot: u32, side: Side, ends: Pair) -> u64
    requires probe { IsProbe (present trail.now) rule.now slot }
    requires ends { ends ≡ pair (low_at (present trail.now) slot) (high_at (present trail.now) slot) }
    requires one { IsHalved (present trail.now) rule.now slot side 1 (width (present trail.now) slot) }
    ensures { IsHalved (present trail.now) rule.now slot side result result }
{
    let mut least = 1;
    let mut most = ends.high.abs_diff(ends.low);
    let guess = guess(rule, trail, slot, side, ends);
    while least < most {
        let count = next_count(least, most, guess);
        if is_false_on(rule, trail, slot, side, ends, count) {
            least = count;
        } else {
            most = count - 1;
        }
    }
    least
}

/// The number of values to try next, above the least and at most the greatest: a guess, then one more than it, then half way.
fn next_count(least: u64, most: u64, guess: u64) -> u64
    requires { least < most }
    ensures above { least < result }
    ensures within { result ≤ most }
{
    if guess == least {
        least + 1
    } else if least < guess && guess <= most {
        guess
    } else {
        most - (most - least) / 2
    }
}
