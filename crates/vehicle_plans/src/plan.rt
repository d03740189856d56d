//! The plan of a scene's vehicles.

ghost use Rattle.std.specs.Prelude.{◌≡◌, ◌++◌, IfOk, OnOk};
ghost use Rattle.vehicle_plans.specs.VehiclePlan.{plan_in, plan_of, spots, vehicles_plan};

use crate::blocks::{push_blocks, push_later};
use crate::grid::Grid;
use crate::starts::{first_place, push_starts, push_values};
use osc_base::Row;
use search_plans::Entry;
use std::alloc::{AllocError, Global};

/// The plan of a scene whose first slots are those of so many choices: in which order a search decides its slots, and which
/// values it tries first. Without vehicles it has no entry. Out of memory is the only error.
#[tactic(auto, unfolding(crate::specs::VehiclePlan::plan_of))]
pub fn plan_of(alloc: Global, choices: u32, grid: Grid) -> Result<Row<Entry>, AllocError>
    ensures { IfOk result (λ plan. plan ≡ plan_of choices grid) }
{
    let mut plan = Row::new(alloc);
    if grid.vehicles > 0 {
        push_plan(choices, grid, &mut plan)?;
    }
    Ok(plan)
}

fn push_plan(choices: u32, grid: Grid, plan: &mut Row<Entry>) -> Result<(), AllocError>
    ensures { OnOk result (plan.new ≡ plan.old ++ plan_in choices grid) }
{
    push_values(0, choices, plan)?;
    push_spots(choices, grid, plan)?;
    push_vehicles(grid, plan)
}

/// The first vehicle's place, and any value of all slots between choices and vehicles.
fn push_spots(choices: u32, grid: Grid, plan: &mut Row<Entry>) -> Result<(), AllocError>
    ensures { OnOk result (plan.new ≡ plan.old ++ spots choices grid) }
{
    plan.push(first_place(grid, 0))?;
    push_values(choices, grid.first, plan)
}

fn push_vehicles(grid: Grid, plan: &mut Row<Entry>) -> Result<(), AllocError>
    ensures { OnOk result (plan.new ≡ plan.old ++ vehicles_plan grid) }
{
    push_starts(grid, plan)?;
    push_blocks(grid, plan)?;
    push_later(grid, plan)
}
