//! Whether a modifier holds of two samples.

ghost use Rattle.std.specs.Prelude.{◌≡◌, pos, ◌+ℤ◌, ◌-ℤ◌};
ghost use Rattle.modifier_rules.specs.Ends.{AreComparable, AreEnds, HasEnds};
ghost use Rattle.osc_base.specs.Fraction.{value};
ghost use Rattle.osc_base.specs.Comparisons.{is_at_most as at_most, is_between, same_number};
ghost use Rattle.osc_base.specs.Modifiers.{holds_of, metres, metres_a_second, lanes as lane_count};

use osc_base::{Fraction, Kind, Sample};
use std::cmp::Ordering;

/// The modifier holds of the samples of its own vehicle and of the other one, if its range goes from `low` to `high`.
///
/// A value is the range from it to itself. Modifiers without a range don't look at the ends.
pub fn true_at(kind: Kind, own: &Sample, other: &Sample, low: &Fraction, high: &Fraction) -> bool
    requires { HasEnds kind own.now other.now (value low.now) (value high.now) }
    ensures { result ≡ holds_of kind (value low.now) (value high.now) own.now other.now }
{
    match kind {
        Kind::Speed => is_between_ends(low, high, &speed(i128::from(own.speed))),
        Kind::FasterThan => is_between_ends(low, high, &speed(apart(own.speed, other.speed))),
        Kind::SlowerThan => is_between_ends(low, high, &speed(apart(other.speed, own.speed))),
        Kind::SameSpeed => own.speed == other.speed,
        Kind::Lane => is_between_ends(low, high, &lane(i128::from(own.lane))),
        Kind::SameLane => own.lane == other.lane,
        Kind::LeftOf => is_same(i128::from(own.lane), left_of(other.lane)),
        Kind::RightOf => is_same(i128::from(own.lane), right_of(other.lane)),
        Kind::Position => is_between_ends(low, high, &position(i128::from(own.position))),
        Kind::AheadOf => is_between_ends(low, high, &position(apart(own.position, other.position))),
        Kind::Behind => is_between_ends(low, high, &position(apart(other.position, own.position))),
    }
}

/// The first minus the second.
fn apart(a: i64, b: i64) -> i128
    ensures { result ≡ a -ℤ b }
{
    i128::from(a) - i128::from(b)
}

/// The lane on the left.
fn left_of(lane: i64) -> i128
    ensures { result ≡ lane +ℤ pos 1 }
{
    i128::from(lane) + 1
}

/// The lane on the right.
fn right_of(lane: i64) -> i128
    ensures { result ≡ lane -ℤ pos 1 }
{
    i128::from(lane) - 1
}

/// They are one number.
fn is_same(a: i128, b: i128) -> bool
    ensures { result ≡ same_number a b }
{
    a == b
}

/// A speed in metres a second.
fn speed(millimetres: i128) -> Fraction
    ensures { value result ≡ metres_a_second millimetres }
{
    Fraction {
        num: millimetres,
        den: 1000,
    }
}

/// A position in metres.
fn position(micrometres: i128) -> Fraction
    ensures { value result ≡ metres micrometres }
{
    Fraction {
        num: micrometres,
        den: 1_000_000,
    }
}

/// A lane.
fn lane(number: i128) -> Fraction
    ensures { value result ≡ lane_count number }
{
    Fraction {
        num: number,
        den: 1,
    }
}

/// The number is between the ends, both included.
fn is_between_ends(low: &Fraction, high: &Fraction, x: &Fraction) -> bool
    requires { AreEnds (value low.now) (value high.now) (value x.now) }
    ensures { result ≡ is_between (value low.now) (value high.now) (value x.now) }
{
    is_at_most(low, x) && is_at_most(x, high)
}

/// The first is at most the second.
fn is_at_most(x: &Fraction, y: &Fraction) -> bool
    requires { AreComparable (value x.now) (value y.now) }
    ensures { result ≡ at_most (value x.now) (value y.now) }
{
    match x.compare(y) {
        Some(Ordering::Less | Ordering::Equal) => true,
        Some(Ordering::Greater) => false,
        None => false,
    }
}
