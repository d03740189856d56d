//! What a box tells of a slot. One that isn't there has the value 0 alone.
ghost use Rattle.std.specs.Prelude.{◌≡◌, ◌<◌, ◌≤◌, ◌^◌, ◌+ℤ◌, ◌*ℤ◌, pos, max, length, unsigned_abs};
ghost use Rattle.std.specs.Int.{int_div_euclid};
ghost use Rattle.box_eval.specs.Box.{low_at, high_at};
ghost use Rattle.search_plans.specs.Wishes.{is_wide, draw_at, lacks_share, lacks_mean, lacks_base, base_value, worth, mean_of};

use crate::draw::Draw;
use crate::{Mean, Share};
use box_eval::Ends;

/// The least value of a slot.
pub(crate) fn low_of<E: Ends>(ends: &E, slot: u32) -> i64
    requires { length (E.ends ends.now) < 2 ^ 32 }
    ensures { result ≡ low_at (E.ends ends.now) slot }
{
    if slot < ends.len() { ends.low(slot) } else { 0 }
}

/// The greatest value of a slot.
fn high_of<E: Ends>(ends: &E, slot: u32) -> i64
    requires { length (E.ends ends.now) < 2 ^ 32 }
    ensures { result ≡ high_at (E.ends ends.now) slot }
{
    if slot < ends.len() {
        ends.high(slot)
    } else {
        0
    }
}

/// A slot has two values or more.
pub(crate) fn is_wide<E: Ends>(ends: &E, slot: u32) -> bool
    requires { length (E.ends ends.now) < 2 ^ 32 }
    ensures { result ≡ is_wide (E.ends ends.now) slot }
{
    low_of(ends, slot) < high_of(ends, slot)
}

/// A number that is to cut a slot.
pub(crate) fn draw_at<E: Ends>(ends: &E, slot: u32, number: u64) -> Draw
    requires { length (E.ends ends.now) < 2 ^ 32 }
    ensures { result ≡ draw_at (E.ends ends.now) slot number }
{
    Draw {
        number,
        slot,
        low: low_of(ends, slot),
        high: high_of(ends, slot),
    }
}

fn lacks_share<E: Ends>(ends: &E, share: Share) -> bool
    requires { length (E.ends ends.now) < 2 ^ 32 }
    ensures { result ≡ lacks_share (E.ends ends.now) share }
{
    share.times.unsigned_abs() > 0 && is_wide(ends, share.slot)
}

/// A slot of the mean has no single value yet.
pub(crate) fn lacks_mean<E: Ends>(ends: &E, mean: &Mean) -> bool
    requires { length (E.ends ends.now) < 2 ^ 32 }
    ensures { result ≡ lacks_mean (E.ends ends.now) mean.now }
{
    (lacks_share(ends, mean.first) || lacks_share(ends, mean.second))
        || (lacks_share(ends, mean.third) || lacks_share(ends, mean.fourth))
}

/// The base has no single value yet.
pub(crate) fn lacks_base<E: Ends>(ends: &E, base: Option<u32>) -> bool
    requires { length (E.ends ends.now) < 2 ^ 32 }
    ensures { result ≡ lacks_base (E.ends ends.now) base }
{
    match base {
        Some(slot) => is_wide(ends, slot),
        None => false,
    }
}

/// The value of the base.
pub(crate) fn base_value<E: Ends>(ends: &E, base: Option<u32>) -> i64
    requires { length (E.ends ends.now) < 2 ^ 32 }
    ensures { result ≡ base_value (E.ends ends.now) base }
{
    match base {
        Some(slot) => low_of(ends, slot),
        None => 0,
    }
}

/// What a share gives the sum.
fn worth<E: Ends>(ends: &E, share: Share) -> i128
    requires { length (E.ends ends.now) < 2 ^ 32 }
    ensures is { result ≡ worth (E.ends ends.now) share }
    ensures small { unsigned_abs result ≤ 2 ^ 94 }
{
    multiple(share.times, low_of(ends, share.slot))
}

fn multiple(times: i32, value: i64) -> i128
    ensures is { result ≡ times *ℤ value }
    ensures small { unsigned_abs result ≤ 2 ^ 94 }
{
    i128::from(times) * i128::from(value)
}

/// The mean, rounded down.
#[tactic(auto, unfolding(crate::specs::Wishes::mean_of))]
pub(crate) fn mean_of<E: Ends>(ends: &E, mean: &Mean) -> i128
    requires { length (E.ends ends.now) < 2 ^ 32 }
    ensures is { result ≡ mean_of (E.ends ends.now) mean.now }
    ensures small { unsigned_abs result ≤ 2 ^ 97 }
{
    let first = worth(ends, mean.first);
    let second = worth(ends, mean.second);
    let third = worth(ends, mean.third);
    let fourth = worth(ends, mean.fourth);
    over(sum_of(first, second, third, fourth), mean.over)
}

fn sum_of(first: i128, second: i128, third: i128, fourth: i128) -> i128
    requires first { unsigned_abs first ≤ 2 ^ 94 }
    requires second { unsigned_abs second ≤ 2 ^ 94 }
    requires third { unsigned_abs third ≤ 2 ^ 94 }
    requires fourth { unsigned_abs fourth ≤ 2 ^ 94 }
    ensures is { result ≡ (first +ℤ second) +ℤ (third +ℤ fourth) }
    ensures small { unsigned_abs result ≤ 2 ^ 96 }
{
    (first + second) + (third + fourth)
}

/// A sum over a number, rounded down.
fn over(sum: i128, parts: u32) -> i128
    requires { unsigned_abs sum ≤ 2 ^ 96 }
    ensures is { result ≡ int_div_euclid sum (pos (max 1 parts)) }
    ensures small { unsigned_abs result ≤ 2 ^ 97 }
{
    sum.div_euclid(i128::from(parts.max(1)))
}
