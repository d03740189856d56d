//! Cuts of a slot: in the middle, and beside a value.
ghost use Rattle.std.specs.Prelude.{◌≡◌, ◌≤ℤ◌, ◌<ℤ◌, pos, ◌-ℤ◌};
ghost use Rattle.box_eval.specs.Box.{cut_at};
ghost use Rattle.search_plans.specs.Wishes.{side_of, sided, halved, beside, split};

use crate::draw::Draw;
use crate::stepping::middle;
use box_eval::{Cut, Side};

fn side_of(number: u64) -> Side
    ensures { result ≡ side_of number }
{
    if number % 2 == 0 {
        Side::Low
    } else {
        Side::High
    }
}

/// A value between two others, or one of them.
fn narrow(value: i128, low: i64, high: i64) -> i64
    requires low { low ≤ℤ value }
    requires high { value ≤ℤ high }
    ensures { result ≡ value }
{
    value as i64
}

/// The value before one that isn't the least.
fn one_less(value: i64, low: i64) -> i64
    requires { low <ℤ value }
    ensures { result ≡ value -ℤ pos 1 }
{
    value - 1
}

/// A cut of a slot.
pub(crate) fn cut_at(side: Side, draw: Draw, value: i128) -> Cut
    requires low { draw.low ≤ℤ value }
    requires high { value <ℤ draw.high }
    ensures { result ≡ cut_at side draw.slot value }
{
    Cut {
        side,
        slot: draw.slot,
        value: narrow(value, draw.low, draw.high),
    }
}

/// A cut at a value that leaves both parts one.
pub(crate) fn sided(draw: Draw, value: i128) -> Cut
    requires low { draw.low ≤ℤ value }
    requires high { value <ℤ draw.high }
    ensures { result ≡ sided draw value }
{
    cut_at(side_of(draw.number), draw, value)
}

/// A cut in the middle.
#[tactic(auto, unfolding(crate::specs::Wishes::halved))]
pub(crate) fn halved(draw: Draw) -> Cut
    requires { draw.low <ℤ draw.high }
    ensures { result ≡ halved draw }
{
    sided(draw, middle(i128::from(draw.low), i128::from(draw.high)))
}

/// A cut beside a value that is no end.
fn split(draw: Draw, value: i64) -> Cut
    requires low { draw.low <ℤ value }
    requires high { value <ℤ draw.high }
    ensures { result ≡ split draw value }
{
    let slot = draw.slot;
    if draw.number / 16 % 2 == 0 {
        let side = Side::Low;
        Cut { side, slot, value }
    } else {
        Cut {
            side: Side::High,
            slot,
            value: one_less(value, draw.low),
        }
    }
}

/// A cut beside a wanted value.
#[tactic(auto, unfolding(crate::specs::Wishes::beside))]
pub(crate) fn beside(draw: Draw, wanted: i128) -> Cut
    requires { draw.low <ℤ draw.high }
    ensures { result ≡ beside draw wanted }
{
    let slot = draw.slot;
    if i128::from(draw.high) <= wanted {
        let value = one_less(draw.high, draw.low);
        let side = Side::High;
        Cut { side, slot, value }
    } else if wanted <= i128::from(draw.low) {
        let value = draw.low;
        let side = Side::Low;
        Cut { side, slot, value }
    } else {
        split(draw, narrow(wanted, draw.low, draw.high))
    }
}
