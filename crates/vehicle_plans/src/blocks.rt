//! Vehicles from block to block: at its end first, then in its midst, then between.

ghost use Rattle.std.specs.Prelude.{◌≡◌, ◌≤◌, ◌++◌, OnOk};
ghost use Rattle.vehicle_plans.specs.VehiclePlan.{border, block, block_at, blocks, speeds, ends, end_of, within, middles};
ghost use Rattle.vehicle_plans.specs.VehiclePlan.{half, halves, inner, betweens, lanes, lane_ends, later, path_of};

use crate::grid::{Grid, Quantity, product};
use crate::means::{between, kept, passed, reached};
use osc_base::Row;
use search_plans::Entry;
use std::alloc::AllocError;

/// How often a block is halved at most.
const MOST_HALVINGS: u32 = 5;

/// The tick in the middle of two.
fn half(a: u32, b: u32) -> u32
    ensures { result ≡ half a b }
{
    ((u64::from(a) + u64::from(b)) / 2) as u32
}

/// The tick at which a block starts.
fn border(grid: Grid, number: u64) -> u32
    requires { number ≤ 4294967296 }
    ensures { result ≡ border grid number }
{
    let ticks = u128::from(grid.ticks);
    product(number, u64::from(grid.block_length())).min(ticks) as u32
}

/// All blocks.
pub(crate) fn push_blocks(grid: Grid, plan: &mut Row<Entry>) -> Result<(), AllocError>
    ensures { OnOk result (plan.new ≡ plan.old ++ blocks grid) }
{
    let last = u64::from(grid.ticks / grid.block_length());
    'numbers: for number in 0..last + 1 {
        push_block_at(grid, number, plan)?;
    }
    Ok(())
}

fn push_block_at(grid: Grid, number: u64, plan: &mut Row<Entry>) -> Result<(), AllocError>
    requires { number ≤ 4294967295 }
    ensures { OnOk result (plan.new ≡ plan.old ++ block_at grid number) }
{
    let from = border(grid, number);
    let to = border(grid, number + 1);
    push_block(grid, from, to, plan)
}

fn push_block(grid: Grid, a: u32, b: u32, plan: &mut Row<Entry>) -> Result<(), AllocError>
    ensures { OnOk result (plan.new ≡ plan.old ++ block grid a b) }
{
    if a < b {
        push_speeds(grid, a, b, plan)?;
        push_lanes(grid, a, b, plan)
    } else {
        Ok(())
    }
}

fn push_speeds(grid: Grid, a: u32, b: u32, plan: &mut Row<Entry>) -> Result<(), AllocError>
    ensures { OnOk result (plan.new ≡ plan.old ++ speeds grid a b) }
{
    push_ends(grid, a, b, plan)?;
    push_between(grid, a, b, plan)
}

/// The speeds of all vehicles between the ends of a block.
fn push_between(grid: Grid, a: u32, b: u32, plan: &mut Row<Entry>) -> Result<(), AllocError>
    ensures { OnOk result (plan.new ≡ plan.old ++ within grid a b) }
{
    if u64::from(a) + 1 < u64::from(b) {
        let middle = half(a, b);
        push_middles(grid, a, middle, b, plan)?;
        push_halves(grid, Quantity::Speed, MOST_HALVINGS, a, middle, b, plan)
    } else {
        Ok(())
    }
}

fn push_lanes(grid: Grid, a: u32, b: u32, plan: &mut Row<Entry>) -> Result<(), AllocError>
    ensures { OnOk result (plan.new ≡ plan.old ++ lanes grid a b) }
{
    push_lane_ends(grid, a, b, plan)?;
    push_inner(grid, Quantity::Lane, MOST_HALVINGS, a, b, plan)
}

/// The speed and then the position of each vehicle at the end of a block.
fn push_ends(grid: Grid, a: u32, b: u32, plan: &mut Row<Entry>) -> Result<(), AllocError>
    ensures { OnOk result (plan.new ≡ plan.old ++ ends grid a b) }
{
    'vehicles: for vehicle in 0..grid.vehicles {
        push_end(grid, a, b, vehicle, plan)?;
    }
    Ok(())
}

fn push_end(
    grid: Grid,
    a: u32,
    b: u32,
    vehicle: u32,
    plan: &mut Row<Entry>,
) -> Result<(), AllocError>
    ensures { OnOk result (plan.new ≡ plan.old ++ end_of grid a b vehicle) }
{
    plan.push(kept(grid, Quantity::Speed, vehicle, a, b))?;
    plan.push(reached(grid, vehicle, a, b))
}

/// The speed of each vehicle in the midst of a block.
fn push_middles(
    grid: Grid,
    a: u32,
    middle: u32,
    b: u32,
    plan: &mut Row<Entry>,
) -> Result<(), AllocError>
    ensures { OnOk result (plan.new ≡ plan.old ++ middles grid a middle b) }
{
    'vehicles: for vehicle in 0..grid.vehicles {
        plan.push(passed(grid, vehicle, a, middle, b))?;
    }
    Ok(())
}

/// The lane of each vehicle at the end of a block.
fn push_lane_ends(grid: Grid, a: u32, b: u32, plan: &mut Row<Entry>) -> Result<(), AllocError>
    ensures { OnOk result (plan.new ≡ plan.old ++ lane_ends grid a b) }
{
    'vehicles: for vehicle in 0..grid.vehicles {
        plan.push(kept(grid, Quantity::Lane, vehicle, a, b))?;
    }
    Ok(())
}

/// A quantity of all vehicles between two ticks at which it is known, by halves.
fn push_inner(
    grid: Grid,
    quantity: Quantity,
    depth: u32,
    a: u32,
    b: u32,
    plan: &mut Row<Entry>,
) -> Result<(), AllocError>
    ensures { OnOk result (plan.new ≡ plan.old ++ inner grid quantity depth a b) }
{
    if depth == 0 {
        return Ok(());
    }
    if u64::from(a) + 1 >= u64::from(b) {
        return Ok(());
    }
    let middle = half(a, b);
    push_betweens(grid, quantity, a, middle, b, plan)?;
    push_inner(grid, quantity, depth - 1, a, middle, plan)?;
    push_inner(grid, quantity, depth - 1, middle, b, plan)?;
    Ok(())
}

/// A quantity of all vehicles on both sides of a tick.
fn push_halves(
    grid: Grid,
    quantity: Quantity,
    depth: u32,
    a: u32,
    middle: u32,
    b: u32,
    plan: &mut Row<Entry>,
) -> Result<(), AllocError>
    ensures { OnOk result (plan.new ≡ plan.old ++ halves grid quantity depth a middle b) }
{
    push_inner(grid, quantity, depth, a, middle, plan)?;
    push_inner(grid, quantity, depth, middle, b, plan)?;
    Ok(())
}

fn push_betweens(
    grid: Grid,
    quantity: Quantity,
    a: u32,
    middle: u32,
    b: u32,
    plan: &mut Row<Entry>,
) -> Result<(), AllocError>
    ensures { OnOk result (plan.new ≡ plan.old ++ betweens grid quantity a middle b) }
{
    'vehicles: for vehicle in 0..grid.vehicles {
        plan.push(between(grid, quantity, vehicle, a, middle, b))?;
    }
    Ok(())
}

/// The positions of all vehicles after the first tick.
pub(crate) fn push_later(grid: Grid, plan: &mut Row<Entry>) -> Result<(), AllocError>
    ensures { OnOk result (plan.new ≡ plan.old ++ later grid) }
{
    'vehicles: for vehicle in 0..grid.vehicles {
        push_path(grid, vehicle, plan)?;
    }
    Ok(())
}

fn push_path(grid: Grid, vehicle: u32, plan: &mut Row<Entry>) -> Result<(), AllocError>
    ensures { OnOk result (plan.new ≡ plan.old ++ path_of grid vehicle) }
{
    'ticks: for tick in 0..grid.ticks {
        plan.push(kept(grid, Quantity::Position, vehicle, tick, tick + 1))?;
    }
    Ok(())
}
