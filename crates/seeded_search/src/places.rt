//! The present box: its cuts, the slot that a plan decides next, and the first rule that is false on it.
ghost use Rattle.std.specs.Prelude.{◌≡◌, ℕ, ◌<◌, ◌^◌, pos, ◌+ℤ◌, ◌<ℤ◌, length, slice_get, true, false, Some, IfSome, MatchOption};
ghost use Rattle.box_eval.specs.Box.{low_at, high_at, IsBox, IsCutOf, IsOnePoint, first_part, second_part, up_to, from};
ghost use Rattle.box_eval.specs.declared.rule.Rule.{Rule};
ghost use Rattle.search_laws.specs.record_trees.Record.{may_close, cut_line};
ghost use Rattle.box_eval.specs.Verdict.{verdict_of};
ghost use Rattle.box_eval.specs.Rules.{AllFit};
ghost use Rattle.search_laws.specs.record_trees.Guided.{NoneFalse};
ghost use Rattle.search_plans.specs.Plans.{next_entry};
ghost use Rattle.bound_trail.specs.History.{mark_of, present, with_box};

use bound_trail::Trail;
use box_eval::{Cut, Ends, Flat, Rule, Side, Verdict, judge};
use search_laws::Line;
use search_plans::{Entry, next_entry};

/// The line of a cut.
pub(crate) fn cut_line(cut: Cut) -> Line
    ensures { result ≡ cut_line cut }
{
    let Cut { side, slot, value } = cut;
    match side {
        Side::Low => Line::Low { slot, value },
        Side::High => Line::High { slot, value },
    }
}

/// Goes to the part of the present box where the cut's slot is at most its value.
fn keep_below(trail: &mut Trail, cut: Cut)
    requires room { mark_of trail.old < trail.old.room }
    requires cut { IsCutOf (present trail.old) cut }
    ensures { trail.new ≡ with_box trail.old (up_to (present trail.old) cut.slot cut.value) }
{
    trail.set_high(cut.slot, cut.value);
}

/// Goes to the part of the present box where the cut's slot is above its value.
fn keep_above(trail: &mut Trail, cut: Cut)
    requires room { mark_of trail.old < trail.old.room }
    requires cut { IsCutOf (present trail.old) cut }
    ensures { trail.new ≡ with_box trail.old (from (present trail.old) cut.slot (cut.value +ℤ pos 1)) }
{
    let least = value_above(cut.value, trail.high(cut.slot));
    trail.set_low(cut.slot, least);
}

/// The value above another, which is below some value.
fn value_above(value: i64, high: i64) -> i64
    requires { value <ℤ high }
    ensures { result ≡ value +ℤ pos 1 }
{
    value + 1
}

/// Goes to the first part of a cut of the present box.
pub(crate) fn enter_first(trail: &mut Trail, cut: Cut)
    requires room { mark_of trail.old < trail.old.room }
    requires cut { IsCutOf (present trail.old) cut }
    ensures { trail.new ≡ with_box trail.old (first_part cut (present trail.old)) }
{
    match cut.side {
        Side::Low => keep_below(trail, cut),
        Side::High => keep_above(trail, cut),
    }
}

/// Goes to the second part of a cut of the present box.
pub(crate) fn enter_second(trail: &mut Trail, cut: Cut)
    requires room { mark_of trail.old < trail.old.room }
    requires cut { IsCutOf (present trail.old) cut }
    ensures { trail.new ≡ with_box trail.old (second_part cut (present trail.old)) }
{
    match cut.side {
        Side::Low => keep_above(trail, cut),
        Side::High => keep_below(trail, cut),
    }
}

/// The entry of a plan that is decided next in the present box: its slot has two values or more.
pub(crate) fn next_here(plan: &[Entry], trail: &Trail) -> Option<Entry>
    requires few { length (present trail.now) < 2 ^ 32 }
    requires ordered { IsBox (present trail.now) }
    ensures is { result ≡ next_entry plan.now (present trail.now) }
    ensures wide { MatchOption result (IsOnePoint (present trail.now))
        (λ e. low_at (present trail.now) e.slot <ℤ high_at (present trail.now) e.slot) }
{
    next_entry(plan, trail)
}

/// The rule of a number.
pub(crate) fn rule_at(flat: &Flat, number: u32) -> &Rule
    requires { number < length flat.now.rules }
    ensures { slice_get flat.now.rules number ≡ Some result.now }
{
    &flat.rules.as_slice()[number as usize]
}

/// The verdict of the present box on a rule.
pub(crate) fn verdict_here(flat: &Flat, trail: &Trail, number: u32) -> Verdict
    requires number { number < length flat.now.rules }
    requires fit { AllFit (present trail.now) flat.now.rules }
    ensures { (rule : Rule) → slice_get flat.now.rules number ≡ Some rule → result ≡ verdict_of (present trail.now) rule }
{
    judge(rule_at(flat, number), trail)
}

/// Whether a rule is false on the present box.
fn is_false(flat: &Flat, trail: &Trail, number: u32) -> bool
    requires number { number < length flat.now.rules }
    requires fit { AllFit (present trail.now) flat.now.rules }
    ensures { result ≡ may_close flat.now.rules (present trail.now) number }
{
    match verdict_here(flat, trail, number) {
        Verdict::False => true,
        _ => false,
    }
}

/// The first rule that is false on the present box.
pub(crate) fn first_false(flat: &Flat, trail: &Trail) -> Option<u32>
    requires few { length flat.now.rules < 2 ^ 32 }
    requires fit { AllFit (present trail.now) flat.now.rules }
    ensures found { IfSome result (λ k. may_close flat.now.rules (present trail.now) k ≡ true) }
    ensures bound { IfSome result (λ k. k < length flat.now.rules) }
    ensures none { MatchOption result (NoneFalse (present trail.now) flat.now.rules)
        (λ k. (j : ℕ) → j < k → may_close flat.now.rules (present trail.now) j ≡ false) }
{
    for number in 0..flat.rules.as_slice().len() as u32 {
        if is_false(flat, trail, number) {
            return Some(number);
        }
    }
    None
}
