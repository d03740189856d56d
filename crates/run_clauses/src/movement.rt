//! Whether a vehicle moves as it may from one tick to the next.

ghost use Rattle.std.specs.Prelude.{◌≡◌, ◌^◌, pos, neg_ℤ, ◌+ℤ◌, ◌-ℤ◌, ◌*ℤ◌, ◌≤ℤ◌, int_le};
ghost use Rattle.osc_base.specs.Comparisons.{same_number};
ghost use Rattle.run_entries.specs.composition.Movement.{keeps_lane as stays_near, moves_on as goes_on, is_gentle as stays_gentle, is_step as steps};

use osc_base::Sample;

/// The lane changes by at most 1.
pub fn keeps_lane(now: &Sample, next: &Sample) -> bool
    ensures { result ≡ stays_near now.now next.now }
{
    is_at_most(i128::from(next.lane), one_more(now.lane))
        && is_at_most(i128::from(now.lane), one_more(next.lane))
}

fn one_more(lane: i64) -> i128
    ensures { result ≡ lane +ℤ pos 1 }
{
    i128::from(lane) + 1
}

fn is_at_most(a: i128, b: i128) -> bool
    ensures { result ≡ int_le a b }
{
    a <= b
}

/// In a tick of so many milliseconds the position grows by so many times the speed.
pub fn moves_on(tick: u32, now: &Sample, next: &Sample) -> bool
    ensures { result ≡ goes_on tick now.now next.now }
{
    is_same(
        i128::from(next.position),
        grown(now.position, over_tick(tick, now.speed)),
    )
}

fn is_same(a: i128, b: i128) -> bool
    ensures { result ≡ same_number a b }
{
    a == b
}

/// A rate over a tick of so many milliseconds.
fn over_tick(tick: u32, rate: i64) -> i128
    ensures value { result ≡ pos tick *ℤ rate }
    ensures low { neg_ℤ (pos (2 ^ 95)) ≤ℤ result }
    ensures high { result ≤ℤ pos (2 ^ 95) }
{
    i128::from(tick) * i128::from(rate)
}

fn grown(position: i64, by: i128) -> i128
    requires low { neg_ℤ (pos (2 ^ 95)) ≤ℤ by }
    requires high { by ≤ℤ pos (2 ^ 95) }
    ensures { result ≡ position +ℤ by }
{
    i128::from(position) + by
}

/// The speed changes by at most the greatest acceleration times the length of a tick.
pub fn is_gentle(tick: u32, max_acceleration: i64, now: &Sample, next: &Sample) -> bool
    ensures { result ≡ stays_gentle tick max_acceleration now.now next.now }
{
    is_at_most(
        gain(next.speed, now.speed),
        over_tick(tick, max_acceleration),
    ) && is_at_most(
        gain(now.speed, next.speed),
        over_tick(tick, max_acceleration),
    )
}

/// A thousand times the first minus the second.
fn gain(a: i64, b: i64) -> i128
    ensures { result ≡ pos 1000 *ℤ (a -ℤ b) }
{
    1000 * (i128::from(a) - i128::from(b))
}

/// The vehicle moves from one tick to the next as it may.
pub fn is_step(tick: u32, max_acceleration: i64, now: &Sample, next: &Sample) -> bool
    ensures { result ≡ steps tick max_acceleration now.now next.now }
{
    moves_on(tick, now, next)
        && keeps_lane(now, next)
        && is_gentle(tick, max_acceleration, now, next)
}
