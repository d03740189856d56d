//! The whole text, and the line behind the run.

ghost use Rattle.std.specs.Prelude.{◌≡◌, ◌++◌, IfOk, OnOk};
ghost use Rattle.std.specs.String.{string_bytes};
ghost use Rattle.made_programs.specs.MadeText.{drive_lines, for_each, phase_lines, start_lines, vehicle_line};
ghost use Rattle.made_programs.specs.MadeText as made;

use crate::lines::{push_drive, push_lane, push_position, push_speed, push_vehicle};
use osc_base::Text;
use std::alloc::{AllocError, Global};

/// The source text of a program of `count` vehicles, which drive at once in each of `count` phases. A vehicle is on another lane
/// in the next phase. Out of memory is the only error.
pub fn made_text(alloc: Global, count: u32) -> Result<Text, AllocError>
    ensures { IfOk result (λ text. text ≡ made.made_text count) }
{
    let mut text = String::from_str(alloc, "import osc.standard\nscenario top:\n")?;
    push_vehicles(&mut text, count)?;
    text.push_str("    do serial:\n")?;
    push_phases(&mut text, count)?;
    Ok(Text::of(text))
}

/// The line that `osc make` writes behind a run of these phases that ends at this tick, when the run has been checked.
pub fn made_line(alloc: Global, count: u32, phases: usize, end: u32) -> Result<Text, AllocError>
    ensures { IfOk result (λ text. text ≡ made.made_line count phases end) }
{
    Ok(Text::of(format!(in alloc; "make {count} phases {phases} end {end} check yes\n")?))
}

/// Adds the declaration of each vehicle.
fn push_vehicles(text: &mut String, count: u32) -> Result<(), AllocError>
    ensures { OnOk result (string_bytes text.new ≡ string_bytes text.old ++ for_each count vehicle_line) }
{
    for vehicle in 0..count {
        push_vehicle(text, vehicle)?;
    }
    Ok(())
}

/// Adds the block of each phase.
fn push_phases(text: &mut String, count: u32) -> Result<(), AllocError>
    ensures { OnOk result (string_bytes text.new ≡ string_bytes text.old ++ for_each count (phase_lines count)) }
{
    for phase in 0..count {
        push_phase(text, count, phase)?;
    }
    Ok(())
}

/// Adds a phase: all vehicles at once.
fn push_phase(text: &mut String, count: u32, phase: u32) -> Result<(), AllocError>
    ensures { OnOk result (string_bytes text.new ≡ string_bytes text.old ++ phase_lines count phase) }
{
    text.push_str("        parallel:\n")?;
    push_drives(text, count, phase)
}

/// Adds what each vehicle does in a phase.
fn push_drives(text: &mut String, count: u32, phase: u32) -> Result<(), AllocError>
    ensures { OnOk result (string_bytes text.new ≡ string_bytes text.old ++ for_each count (drive_lines phase)) }
{
    for vehicle in 0..count {
        push_driving(text, phase, vehicle)?;
    }
    Ok(())
}

/// Adds what a vehicle does in a phase.
fn push_driving(text: &mut String, phase: u32, vehicle: u32) -> Result<(), AllocError>
    ensures { OnOk result (string_bytes text.new ≡ string_bytes text.old ++ drive_lines phase vehicle) }
{
    push_drive(text, vehicle)?;
    push_lane(text, phase, vehicle)?;
    push_speed(text, vehicle)?;
    push_start(text, phase, vehicle)
}

/// Adds where a vehicle starts, in the first phase alone.
fn push_start(text: &mut String, phase: u32, vehicle: u32) -> Result<(), AllocError>
    ensures { OnOk result (string_bytes text.new ≡ string_bytes text.old ++ start_lines phase vehicle) }
{
    if phase == 0 {
        push_position(text, vehicle)
    } else {
        Ok(())
    }
}
