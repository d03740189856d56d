//! Wishes that are like other slots.

ghost use Rattle.std.specs.Prelude.{◌≡◌, ◌-ℤ◌, pos};
ghost use Rattle.vehicle_plans.specs.Means.{counted, even, like_one, like_both, kept, between, reached, passed};

use crate::grid::{Grid, Quantity, numbered, product};
use search_plans::{Entry, Mean, Share, Wish};

/// No share.
const NONE: Share = Share { times: 0, slot: 0 };

/// A number as one that counts a share, or the greatest such number.
#[tactic(auto, unfolding(crate::specs::Means::counted))]
fn counted(number: u128) -> i32
    ensures { result ≡ counted number }
{
    number.min(2_147_483_647) as i32
}

/// The same, to be taken away.
#[tactic(auto, unfolding(crate::specs::Means::counted))]
fn taken(number: u128) -> i32
    ensures { result ≡ pos 0 -ℤ counted number }
{
    -(number.min(2_147_483_647) as i32)
}

fn share(times: i32, slot: u32) -> Share
    ensures { result ≡ record { times = times; slot = slot } }
{
    Share { times, slot }
}

/// Each multiple of a step alike.
#[tactic(auto, unfolding(crate::specs::Means::even))]
pub(crate) fn even(slot: u32, step: u32) -> Entry
    ensures { result ≡ even slot step }
{
    Entry {
        slot,
        wish: Wish::Even { step },
    }
}

/// The value of another slot.
#[tactic(auto, unfolding(crate::specs::Means::like_one))]
pub(crate) fn like_one(slot: u32, other: u32) -> Entry
    ensures { result ≡ like_one slot other }
{
    let mean = Mean {
        first: share(1, other),
        second: NONE,
        third: NONE,
        fourth: NONE,
        over: 1,
    };
    Entry {
        slot,
        wish: Wish::Like {
            mean,
            base: None,
            step: 1,
        },
    }
}

/// The quantity of a vehicle at a tick, as it is at another.
pub(crate) fn kept(grid: Grid, quantity: Quantity, vehicle: u32, from: u32, to: u32) -> Entry
    ensures { result ≡ kept grid quantity vehicle from to }
{
    like_one(
        grid.slot(quantity, vehicle, to),
        grid.slot(quantity, vehicle, from),
    )
}

/// The value in the middle of two others.
#[tactic(auto, unfolding(crate::specs::Means::like_both))]
pub(crate) fn like_both(slot: u32, left: u32, right: u32) -> Entry
    ensures { result ≡ like_both slot left right }
{
    let mean = Mean {
        first: share(1, left),
        second: share(1, right),
        third: NONE,
        fourth: NONE,
        over: 2,
    };
    Entry {
        slot,
        wish: Wish::Like {
            mean,
            base: None,
            step: 1,
        },
    }
}

/// The quantity of a vehicle at a tick, in the middle of what it is at two others.
pub(crate) fn between(
    grid: Grid,
    quantity: Quantity,
    vehicle: u32,
    from: u32,
    middle: u32,
    to: u32,
) -> Entry
    ensures { result ≡ between grid quantity vehicle from middle to }
{
    let left = grid.slot(quantity, vehicle, from);
    let right = grid.slot(quantity, vehicle, to);
    like_both(grid.slot(quantity, vehicle, middle), left, right)
}

/// The position at the end of a block in which the speed changes evenly.
#[tactic(auto, unfolding(crate::specs::Means::reached))]
pub(crate) fn reached(grid: Grid, vehicle: u32, from: u32, to: u32) -> Entry
    ensures { result ≡ reached grid vehicle from to }
{
    let ticks = u64::from(to.saturating_sub(from));
    let tick = u64::from(grid.tick);
    let start = grid.slot(Quantity::Position, vehicle, from);
    let mean = Mean {
        first: share(2, start),
        second: share(
            counted(product(tick, ticks + 1)),
            grid.slot(Quantity::Speed, vehicle, from),
        ),
        third: share(
            counted(product(tick, ticks.saturating_sub(1))),
            grid.slot(Quantity::Speed, vehicle, to),
        ),
        fourth: NONE,
        over: 2,
    };
    Entry {
        slot: grid.slot(Quantity::Position, vehicle, to),
        wish: Wish::Like {
            mean,
            base: Some(start),
            step: grid.tick,
        },
    }
}

/// The speed in the midst of a block, by which its vehicle gets from its first position to its last.
#[tactic(auto, unfolding(crate::specs::Means::passed))]
pub(crate) fn passed(grid: Grid, vehicle: u32, from: u32, middle: u32, to: u32) -> Entry
    ensures { result ≡ passed grid vehicle from middle to }
{
    let tick = u64::from(grid.tick);
    let before = u64::from(middle.saturating_sub(from)) + 1;
    let after = u64::from(to.saturating_sub(middle)).saturating_sub(1);
    let mean = Mean {
        first: share(2, grid.slot(Quantity::Position, vehicle, to)),
        second: share(-2, grid.slot(Quantity::Position, vehicle, from)),
        third: share(
            taken(product(tick, before)),
            grid.slot(Quantity::Speed, vehicle, from),
        ),
        fourth: share(
            taken(product(tick, after)),
            grid.slot(Quantity::Speed, vehicle, to),
        ),
        over: numbered(product(tick, u64::from(to.saturating_sub(from)))),
    };
    Entry {
        slot: grid.slot(Quantity::Speed, vehicle, middle),
        wish: Wish::Like {
            mean,
            base: None,
            step: 1,
        },
    }
}
