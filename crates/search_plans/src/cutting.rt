//! The cut that a wish and a number give.
ghost use Rattle.std.specs.Prelude.{◌≡◌, ◌<◌, ◌^◌, ◌<ℤ◌, length};
ghost use Rattle.box_eval.specs.Box.{low_at, high_at, IsCutOf};
ghost use Rattle.search_plans.specs.Drawn.{picked, drawn};
ghost use Rattle.search_plans.specs.Wishes.{around, like, wished, wished_by};

use crate::beside::halved;
use crate::draw::Draw;
use crate::known::{base_value, draw_at, is_wide, lacks_base, lacks_mean, low_of, mean_of};
use crate::near::{even, towards, within};
use crate::{Mean, Wish};
use box_eval::{Cut, Ends, Side};

/// The value from the low end on that a number picks, below the high end.
fn picked(number: u64, low: i64, high: i64) -> i64
    requires { low <ℤ high }
    ensures { result ≡ picked number low high }
{
    let offset = number / 4 % high.abs_diff(low);
    (i128::from(low) + i128::from(offset)) as i64
}

/// A cut at one of the ends, or at any value.
fn free(number: u64, slot: u32, low: i64, high: i64) -> Cut
    requires { low <ℤ high }
    ensures { result ≡ drawn number slot low high }
{
    let (side, value) = match number % 4 {
        0 => (Side::Low, low),
        1 => (Side::High, high - 1),
        2 => (Side::Low, picked(number, low, high)),
        _ => (Side::High, picked(number, low, high)),
    };
    Cut { side, slot, value }
}

#[tactic(auto, unfolding(crate::specs::Wishes::around))]
/// A cut that keeps a slot around the value of another.
fn around<E: Ends>(ends: &E, near: u32, reach: u32, step: u32, draw: Draw) -> Cut
    requires few { length (E.ends ends.now) < 2 ^ 32 }
    requires wide { draw.low <ℤ draw.high }
    ensures { result ≡ around (E.ends ends.now) near reach step draw }
{
    if is_wide(ends, near) {
        even(step, draw)
    } else {
        within(low_of(ends, near), reach, step, draw)
    }
}

#[tactic(auto, unfolding(crate::specs::Wishes::like))]
/// A cut towards a mean of other slots.
fn like<E: Ends>(ends: &E, mean: &Mean, base: Option<u32>, step: u32, draw: Draw) -> Cut
    requires few { length (E.ends ends.now) < 2 ^ 32 }
    requires wide { draw.low <ℤ draw.high }
    ensures { result ≡ like (E.ends ends.now) mean.now base step draw }
{
    if lacks_mean(ends, mean) || lacks_base(ends, base) {
        halved(draw)
    } else {
        towards(step, base_value(ends, base), draw, mean_of(ends, mean))
    }
}

/// The cut of a slot by its wish, in a box of which the slot has two values or more.
///
/// It cuts the box: each of its parts has a value of the slot. It takes no memory.
pub fn wished<E: Ends>(wish: &Wish, ends: &E, slot: u32, number: u64) -> Cut
    requires few { length (E.ends ends.now) < 2 ^ 32 }
    requires wide { low_at (E.ends ends.now) slot <ℤ high_at (E.ends ends.now) slot }
    ensures is { result ≡ wished wish.now (E.ends ends.now) slot number }
    ensures cuts { IsCutOf (E.ends ends.now) result }
{
    cut_by(wish, ends, draw_at(ends, slot, number))
}

fn cut_by<E: Ends>(wish: &Wish, ends: &E, draw: Draw) -> Cut
    requires few { length (E.ends ends.now) < 2 ^ 32 }
    requires wide { draw.low <ℤ draw.high }
    ensures { result ≡ wished_by wish.now (E.ends ends.now) draw }
{
    match wish {
        Wish::Free => free(draw.number, draw.slot, draw.low, draw.high),
        Wish::Even { step } => even(*step, draw),
        Wish::Around { near, reach, step } => around(ends, *near, *reach, *step, draw),
        Wish::Like { mean, base, step } => like(ends, mean, *base, *step, draw),
    }
}
