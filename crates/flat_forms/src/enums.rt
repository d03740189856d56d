//! The enums with numbers left out.

ghost use Rattle.std.specs.Prelude.{◌≡◌, ◌-◌, ◌-ℤ◌, pos, cond, option_map, option_to_list, Some, None, map};
ghost use Rattle.osc_base.specs.Comparisons.{same_number};
ghost use Rattle.osc_base.specs.declared.path.Path.{Path};
ghost use Rattle.scene_rules.specs.composition.Items.{OfTyped, typed_item};
ghost use Rattle.scene_rules.specs.composition.Ranges.{has_gap as leaves_out};

use box_eval::Pair;
use slot_ends::{ValueRange, number_ends};

/// They are one number.
fn is_same(a: i128, b: i128) -> bool
    ensures { result ≡ same_number a b }
{
    a == b
}

/// How far the greatest is above the least.
fn spread(ends: Pair) -> i128
    ensures { result ≡ ends.high -ℤ ends.low }
{
    i128::from(ends.high) - i128::from(ends.low)
}

/// How many steps lead through so many numbers.
fn steps(count: usize) -> i128
    ensures { result ≡ pos (count - 1) }
{
    count.saturating_sub(1) as i128
}

/// A number between the least and the greatest of these is left out.
fn has_gap(numbers: &[i64]) -> bool
    ensures { result ≡ leaves_out numbers.now }
{
    !is_same(spread(number_ends(numbers)), steps(numbers.len()))
}

/// These numbers, if one between them is left out.
fn if_gapped(numbers: &[i64]) -> Option<&[i64]>
    ensures { option_map (λ ns. ns.now) result ≡ cond (leaves_out numbers.now) (Some numbers.now) None }
{
    if has_gap(numbers) {
        Some(numbers)
    } else {
        None
    }
}

/// The numbers of an enum that leaves one out.
pub(crate) fn gapped(range: &ValueRange) -> Option<&[i64]>
    ensures { (path : Path) → typed_item path range.now ≡ map (OfTyped path) (option_to_list (option_map (λ ns. ns.now) result)) }
{
    match range {
        ValueRange::Among { numbers } => if_gapped(numbers.as_slice()),
        ValueRange::Between { .. } | ValueRange::Chars => None,
    }
}
