//! The lines of the text, one function a kind.

ghost use Rattle.std.specs.Prelude.{◌≡◌, ◌++◌, OnOk};
ghost use Rattle.std.specs.String.{string_bytes};
ghost use Rattle.made_programs.specs.MadeText.{drive_line, lane_line, position_line, speed_line, vehicle_line};

use std::alloc::AllocError;

/// How many lanes there are.
const LANES: u64 = 3;

/// The speed of the first vehicle, in m/s. Each later one is faster by 1.
const LEAST_SPEED: u64 = 10;

/// How far each vehicle stands ahead of the one before, in metres.
const GAP: u64 = 20;

/// Adds the declaration of a vehicle.
pub fn push_vehicle(text: &mut String, vehicle: u32) -> Result<(), AllocError>
    ensures { OnOk result (string_bytes text.new ≡ string_bytes text.old ++ vehicle_line vehicle) }
{
    write!(text, "    v{vehicle}: vehicle\n")
}

/// Adds the line by which a vehicle drives.
pub fn push_drive(text: &mut String, vehicle: u32) -> Result<(), AllocError>
    ensures { OnOk result (string_bytes text.new ≡ string_bytes text.old ++ drive_line vehicle) }
{
    write!(text, "            v{vehicle}.drive(duration: 0.5s) with:\n")
}

/// Adds the lane of a vehicle in a phase.
pub fn push_lane(text: &mut String, phase: u32, vehicle: u32) -> Result<(), AllocError>
    ensures { OnOk result (string_bytes text.new ≡ string_bytes text.old ++ lane_line phase vehicle) }
{
    let lane = (u64::from(vehicle) + u64::from(phase)) % LANES + 1;
    write!(text, "                lane({lane}, at: start)\n")
}

/// Adds the speed of a vehicle.
pub fn push_speed(text: &mut String, vehicle: u32) -> Result<(), AllocError>
    ensures { OnOk result (string_bytes text.new ≡ string_bytes text.old ++ speed_line vehicle) }
{
    let speed = LEAST_SPEED + u64::from(vehicle);
    write!(text, "                speed({speed}mps)\n")
}

/// Adds the position of a vehicle.
pub fn push_position(text: &mut String, vehicle: u32) -> Result<(), AllocError>
    ensures { OnOk result (string_bytes text.new ≡ string_bytes text.old ++ position_line vehicle) }
{
    let position = GAP * u64::from(vehicle);
    write!(text, "                position({position}m, at: start)\n")
}
