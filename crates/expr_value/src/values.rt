//! The value of an expression.

ghost use Rattle.std.specs.Prelude.{◌≡◌, ◌≤◌, pos, true, is_some, unwrap_or, unsigned_abs, IfSome, map};
ghost use Rattle.std.specs.List.{list_all};
ghost use Rattle.expr_nodes.specs.osc_base.Number.{IsSame};
ghost use Rattle.expr_nodes.specs.osc_base.Fraction.{value as number};
ghost use Rattle.expr_nodes.specs.Typed.{reads, scale, reach, row_of, reads_of};
ghost use Rattle.expr_nodes.specs.Value.{worth};
ghost use Rattle.expr_nodes.specs.Operators.{is_constant};
ghost use Rattle.expr_nodes.specs.Sound.{is_sound, each_read};
ghost use Rattle.expr_nodes.specs.Seen.{seen, reached};
ghost use Rattle.expr_value.specs.Held.{in_reach, are_held};

use crate::counts::count_of;
use crate::reading::{Reading, Zeros};
use expr_nodes::{Earlier, Fraction, Typed};

/// Each path that the expression reads holds a number. Exactly then `value` gives a value.
#[cycle(reads)]
#[tactic(auto, using(crate::proofs::HeldParts::held_both))]
pub fn is_held<R: Reading>(typed: &Typed, reading: &R) -> bool
    ensures { result ≡ are_held (R.told reading.now) (seen typed.now) }
{
    match typed {
        Typed::Constant { .. } => true,
        Typed::Read { path, .. } | Typed::Whole { path, .. } => reading.held(path).is_some(),
        Typed::Listed { items, .. } => items_are_held(items.as_slice(), reading),
        Typed::Span { low, high, .. } => is_held(low.get(), reading)
            && is_held(high.get(), reading),
        Typed::Minus { part, .. } | Typed::Not { part, .. } => is_held(part.get(), reading),
        Typed::Joined {
            first,
            earlier,
            last,
            ..
        } => {
            is_held(first.get(), reading)
                && (parts_are_held(earlier.as_slice(), reading) && is_held(last.get(), reading))
        }
        Typed::Implies { left, right, .. }
        | Typed::Relation { left, right, .. }
        | Typed::Within { left, right, .. } => {
            is_held(left.get(), reading) && is_held(right.get(), reading)
        }
    }
}

/// Each path that the items read holds a number.
#[cycle(reads)]
fn items_are_held<R: Reading>(items: &[Typed], reading: &R) -> bool
    ensures { result ≡ list_all (λ p. is_some (R.told reading.now p)) (reads_of (row_of (map seen items.now))) }
{
    'items: for item in items {
        if !is_held(item, reading) {
            return false;
        }
    }
    true
}

/// Each path that the parts read holds a number.
#[cycle(reads)]
fn parts_are_held<R: Reading>(parts: &[Earlier], reading: &R) -> bool
    ensures { result ≡ list_all (λ r. are_held (R.told reading.now) r.part) (map reached parts.now) }
{
    'parts: for earlier in parts {
        if !is_held(&earlier.part, reading) {
            return false;
        }
    }
    true
}

/// The value of an expression, all of whose paths hold a number.
fn value_held<R: Reading>(typed: &Typed, reading: &R) -> Fraction
    requires sound { is_sound (seen typed.now) ≡ true }
    requires within { each_read (in_reach (R.told reading.now)) (seen typed.now) ≡ true }
    ensures value { IsSame (number result) (worth (λ p. unwrap_or (R.told reading.now p) (pos 0)) (seen typed.now)) }
    ensures scale { result.den ≡ pos (scale (seen typed.now)) }
    ensures reach { unsigned_abs result.num ≤ reach (seen typed.now) }
{
    count_of(typed, reading).over_scale()
}

/// The value over the expression's scale. `None` exactly when a path that the expression reads holds no number.
pub fn value<R: Reading>(typed: &Typed, reading: &R) -> Option<Fraction>
    requires sound { is_sound (seen typed.now) ≡ true }
    requires within { each_read (in_reach (R.told reading.now)) (seen typed.now) ≡ true }
    ensures held { is_some result ≡ list_all (λ p. is_some (R.told reading.now p)) (reads (seen typed.now)) }
    ensures value { IfSome result (λ f. IsSame (number f) (worth (λ p. unwrap_or (R.told reading.now p) (pos 0)) (seen typed.now))) }
    ensures scale { IfSome result (λ f. f.den ≡ pos (scale (seen typed.now))) }
    ensures reach { IfSome result (λ f. unsigned_abs f.num ≤ reach (seen typed.now)) }
{
    if is_held(typed, reading) {
        Some(value_held(typed, reading))
    } else {
        None
    }
}

/// The value over the expression's scale, if each path holds 0. An expression that reads no path has no other value.
#[tactic(auto, using(crate::proofs::ValueLaws::each_reads))]
pub fn constant(typed: &Typed) -> Fraction
    requires sound { is_sound (seen typed.now) ≡ true }
    ensures value { IsSame (number result) (worth (λ p. pos 0) (seen typed.now)) }
    ensures scale { result.den ≡ pos (scale (seen typed.now)) }
    ensures reach { unsigned_abs result.num ≤ reach (seen typed.now) }
{
    value_held(typed, &Zeros)
}
