//! The slots before the vehicles', and the vehicles at the first tick.

ghost use Rattle.std.specs.Prelude.{◌≡◌, ◌++◌, ◌-◌, OnOk};
ghost use Rattle.vehicle_plans.specs.VehiclePlan.{values_from, first_place, first_speed, start_of, starts};

use crate::grid::{Grid, Quantity};
use crate::means::even;
use osc_base::Row;
use search_plans::{Entry, Wish};
use std::alloc::AllocError;

/// Each value of a slot alike, for all slots from one to another.
pub(crate) fn push_values(first: u32, past: u32, plan: &mut Row<Entry>) -> Result<(), AllocError>
    ensures { OnOk result (plan.new ≡ plan.old ++ values_from first (past - first)) }
{
    let count = past.saturating_sub(first);
    'slots: for place in 0..count {
        plan.push(even(first + place, 1))?;
    }
    Ok(())
}

/// The place, the speed and the lane of each vehicle at the first tick.
pub(crate) fn push_starts(grid: Grid, plan: &mut Row<Entry>) -> Result<(), AllocError>
    ensures { OnOk result (plan.new ≡ plan.old ++ starts grid) }
{
    'vehicles: for vehicle in 0..grid.vehicles {
        push_start(grid, vehicle, plan)?;
    }
    Ok(())
}

fn push_start(grid: Grid, vehicle: u32, plan: &mut Row<Entry>) -> Result<(), AllocError>
    ensures { OnOk result (plan.new ≡ plan.old ++ start_of grid vehicle) }
{
    plan.push(first_place(grid, vehicle))?;
    plan.push(first_speed(grid, vehicle))?;
    plan.push(even(grid.slot(Quantity::Lane, vehicle, 0), 1))
}

/// The position at the first tick: at a whole metre.
pub(crate) fn first_place(grid: Grid, vehicle: u32) -> Entry
    ensures { result ≡ first_place grid vehicle }
{
    even(grid.slot(Quantity::Position, vehicle, 0), 1_000_000)
}

/// The speed at the first tick: like that of the first vehicle, give or take 5 m/s.
#[tactic(auto, unfolding(crate::specs::VehiclePlan::first_speed))]
fn first_speed(grid: Grid, vehicle: u32) -> Entry
    ensures { result ≡ first_speed grid vehicle }
{
    Entry {
        slot: grid.slot(Quantity::Speed, vehicle, 0),
        wish: Wish::Around {
            near: grid.slot(Quantity::Speed, 0, 0),
            reach: 5_000,
            step: 500,
        },
    }
}
