//! A run as a table: a line for each vehicle and tick.

ghost use Rattle.std.specs.Prelude.{◌≡◌, ◌++◌, flat_map, IfOk, OnOk};
ghost use Rattle.std.specs.List.{concat};
ghost use Rattle.std.specs.String.{string_bytes};
ghost use Rattle.run_exports.specs.CsvText.{csv_text, motion_part, place_part, sample_line, trace_lines};
ghost use Rattle.run_exports.specs.Timed.{timed};

use crate::decimals::{push_signed_millionths, push_signed_thousandths, push_thousandths};
use osc_base::{Sample, Text};
use run_check::{Run, Trace};
use std::alloc::{AllocError, Global};

/// A run as a table of comma separated values: a line with the names of the columns, and a line for each vehicle and tick. Times
/// are in seconds, positions in metres and speeds in metres a second, exact to the last digit. Out of memory is the only error.
pub fn csv(alloc: Global, run: &Run) -> Result<Text, AllocError>
    ensures { IfOk result (λ text. text ≡ csv_text run.now) }
{
    let mut text = String::from_str(alloc, "time_s,vehicle,lane,position_m,speed_mps\n")?;
    push_traces(alloc, &mut text, run.tick, run.traces.as_slice())?;
    Ok(Text::of(text))
}

/// Adds the lines of each vehicle.
fn push_traces(
    alloc: Global,
    text: &mut String,
    tick: u32,
    traces: &[Trace],
) -> Result<(), AllocError>
    ensures { OnOk result (string_bytes text.new ≡ string_bytes text.old ++ flat_map (trace_lines tick) traces.now) }
{
    for trace in traces {
        push_trace(alloc, text, tick, trace)?;
    }
    Ok(())
}

/// Adds a line for each sample of a vehicle.
fn push_trace(alloc: Global, text: &mut String, tick: u32, trace: &Trace) -> Result<(), AllocError>
    ensures { OnOk result (string_bytes text.new ≡ string_bytes text.old ++ trace_lines tick trace.now) }
{
    let vehicle = trace.path.text(alloc)?;
    push_samples(text, vehicle.as_str(), tick, trace.samples.as_slice())
}

fn push_samples(
    text: &mut String,
    vehicle: &str,
    tick: u32,
    samples: &[Sample],
) -> Result<(), AllocError>
    ensures { OnOk result (string_bytes text.new ≡ string_bytes text.old ++ concat (timed (sample_line vehicle.now) tick 0 samples.now)) }
{
    for (index, sample) in samples.iter().enumerate() {
        push_sample(text, vehicle, index as u128 * u128::from(tick), sample)?;
    }
    Ok(())
}

/// Adds the line of a sample.
fn push_sample(
    text: &mut String,
    vehicle: &str,
    time: u128,
    sample: &Sample,
) -> Result<(), AllocError>
    ensures { OnOk result (string_bytes text.new ≡ string_bytes text.old ++ sample_line vehicle.now time sample.now) }
{
    push_place(text, vehicle, time, sample)?;
    push_motion(text, sample)
}

/// Adds the time, the vehicle and its lane.
fn push_place(
    text: &mut String,
    vehicle: &str,
    time: u128,
    sample: &Sample,
) -> Result<(), AllocError>
    ensures { OnOk result (string_bytes text.new ≡ string_bytes text.old ++ place_part vehicle.now time sample.now) }
{
    push_thousandths(text, time)?;
    let lane = sample.lane;
    write!(text, ",{vehicle},{lane},")
}

/// Adds the position and the speed.
fn push_motion(text: &mut String, sample: &Sample) -> Result<(), AllocError>
    ensures { OnOk result (string_bytes text.new ≡ string_bytes text.old ++ motion_part sample.now) }
{
    push_signed_millionths(text, sample.position)?;
    text.push_str(",")?;
    push_signed_thousandths(text, sample.speed)?;
    text.push_str("\n")
}
