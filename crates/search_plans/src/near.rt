//! Cuts of a slot: by an even draw, around a value, and towards a mean.
ghost use Rattle.std.specs.Prelude.{◌≡◌, ◌≤◌, ◌^◌, ◌≤ℤ◌, ◌<ℤ◌, ◌+ℤ◌, ◌-ℤ◌, pos, unsigned_abs, int_lt, int_le, ◌&&◌};
ghost use Rattle.search_plans.specs.Steps.{multiple, middle, steps_in, steps_to};
ghost use Rattle.search_plans.specs.Wishes.{shared, even, within, inside, led, towards};

use crate::beside::{beside, cut_at, halved, sided};
use crate::draw::Draw;
use crate::stepping::{
    after, before, eighth_down, eighth_up, greatest_to, least_from, middle, multiple, steps_in,
    steps_to,
};
use box_eval::{Cut, Side};

/// The last number before the upper half of the multiples from the first to the last.
fn between(step: u32, first: i128, last: i128) -> i128
    requires first { unsigned_abs first ≤ 2 ^ 65 }
    requires last { unsigned_abs last ≤ 2 ^ 64 }
    requires ordered { first <ℤ last }
    ensures { result ≡ multiple step (middle first last +ℤ pos 1) -ℤ pos 1 }
{
    before(multiple(step, after(middle(first, last))))
}

/// A cut between the halves of the multiples of a step from the first to the last.
fn shared(step: u32, draw: Draw, first: i128, last: i128) -> Cut
    requires wide { draw.low <ℤ draw.high }
    requires first { unsigned_abs first ≤ 2 ^ 65 }
    requires last { unsigned_abs last ≤ 2 ^ 64 }
    requires low { first ≡ steps_to step draw.low }
    requires high { last ≡ steps_in step draw.high }
    ensures { result ≡ shared step draw first last }
{
    if first < last {
        sided(draw, between(step, first, last))
    } else if first <= last {
        beside(draw, multiple(step, first))
    } else {
        halved(draw)
    }
}

/// A cut that draws each multiple of a step alike.
#[tactic(auto, unfolding(crate::specs::Wishes::even))]
pub(crate) fn even(step: u32, draw: Draw) -> Cut
    requires { draw.low <ℤ draw.high }
    ensures { result ≡ even step draw }
{
    let first = steps_to(step, draw.low);
    let last = steps_in(step, i128::from(draw.high));
    shared(step, draw, first, last)
}

/// So much below a value.
fn below(value: i64, reach: u32) -> i128
    ensures is { result ≡ value -ℤ pos reach }
    ensures small { unsigned_abs result ≤ 2 ^ 64 }
{
    i128::from(value) - i128::from(reach)
}

/// So much above a value.
fn above(value: i64, reach: u32) -> i128
    ensures is { result ≡ value +ℤ pos reach }
    ensures small { unsigned_abs result ≤ 2 ^ 64 }
{
    i128::from(value) + i128::from(reach)
}

/// A cut that keeps a slot within a reach of a value.
#[tactic(auto, unfolding(crate::specs::Wishes::within))]
pub(crate) fn within(value: i64, reach: u32, step: u32, draw: Draw) -> Cut
    requires { draw.low <ℤ draw.high }
    ensures { result ≡ within value reach step draw }
{
    let least = below(value, reach);
    let greatest = above(value, reach);
    if is_above(draw, least) {
        cut_at(Side::High, draw, before(least))
    } else if is_below(draw, greatest) {
        cut_at(Side::Low, draw, greatest)
    } else {
        even(step, draw)
    }
}

/// A number is a value of a slot, and not its least.
fn is_above(draw: Draw, number: i128) -> bool
    ensures { result ≡ int_lt draw.low number && int_le number draw.high }
{
    i128::from(draw.low) < number && number <= i128::from(draw.high)
}

/// A number is a value of a slot, and not its greatest.
fn is_below(draw: Draw, number: i128) -> bool
    ensures { result ≡ int_le draw.low number && int_lt number draw.high }
{
    i128::from(draw.low) <= number && number < i128::from(draw.high)
}

/// A wanted number, or one an eighth of the way inside.
#[tactic(auto, unfolding(crate::specs::Wishes::inside))]
fn inside(step: u32, base: i64, first: i128, last: i128, wanted: i128) -> i128
    requires first { unsigned_abs first ≤ 2 ^ 65 }
    requires last { unsigned_abs last ≤ 2 ^ 65 }
    requires ordered { first ≤ℤ last }
    ensures { result ≡ inside step base first last wanted }
{
    if last < wanted {
        greatest_to(step, base, eighth_down(first, last))
    } else if wanted < first {
        least_from(step, base, eighth_up(first, last))
    } else {
        wanted
    }
}

/// A cut beside a wanted number of those from the first to the last.
#[tactic(auto, unfolding(crate::specs::Wishes::led))]
fn led(step: u32, base: i64, draw: Draw, wanted: i128, first: i128, last: i128) -> Cut
    requires wide { draw.low <ℤ draw.high }
    requires first { unsigned_abs first ≤ 2 ^ 65 }
    requires last { unsigned_abs last ≤ 2 ^ 65 }
    ensures { result ≡ led step base draw wanted first last }
{
    if first <= last {
        beside(draw, inside(step, base, first, last, wanted))
    } else {
        halved(draw)
    }
}

/// A cut beside a mean, rounded down to a number that differs from the base by a multiple of the step.
#[tactic(auto, unfolding(crate::specs::Wishes::towards))]
pub(crate) fn towards(step: u32, base: i64, draw: Draw, mean: i128) -> Cut
    requires wide { draw.low <ℤ draw.high }
    requires small { unsigned_abs mean ≤ 2 ^ 97 }
    ensures { result ≡ towards step base draw mean }
{
    let wanted = greatest_to(step, base, mean);
    let first = least_from(step, base, i128::from(draw.low));
    let last = greatest_to(step, base, i128::from(draw.high));
    led(step, base, draw, wanted, first, last)
}
