//! A run as an ASAM OpenSCENARIO XML file.

ghost use Rattle.std.specs.Prelude.{◌≡◌, ◌*◌, ◌++◌, flat_map, IfOk, OnOk};
ghost use Rattle.std.specs.List.{concat};
ghost use Rattle.std.specs.String.{string_bytes};
ghost use Rattle.osc_base.specs.Path.{path_text};
ghost use Rattle.run_exports.specs.Decimals.{signed_fixed};
ghost use Rattle.run_exports.specs.Timed.{timed};
ghost use Rattle.run_exports.specs.XoscParts.{part_text};
ghost use Rattle.run_exports.specs.XoscText.{actor_line, corner_part, driven_group, end_line, entity, group, group_line, group_of, is_left, object_line, place_line, private_line, speed_line, start, start_lines, time_part, trajectory_line, vehicle_line, vertex_line, xosc_text};

use crate::decimals::{push_signed_thousandths, push_thousandths};
use crate::road::Road;
use crate::world::push_position;
use crate::xosc_parts::{Part, push_part};
use osc_base::{Path, Sample, Text};
use run_check::{Run, Trace};
use std::alloc::{AllocError, Global};

/// A run as a file in ASAM OpenSCENARIO XML 1.1, for a simulator. Each vehicle starts where it is at tick 0, and follows a line that
/// has a corner at each tick, so it is at each tick where the run says. The vehicle at the path `left` only starts: the simulation
/// drives it. The road is that of `xodr`, in the file `road.xodr`. Out of memory is the only error.
pub fn xosc(alloc: Global, run: &Run, road: Road, left: &str) -> Result<Text, AllocError>
    ensures { IfOk result (λ text. text ≡ xosc_text road left.now run.now) }
{
    let mut text = String::new(alloc);
    push_entities(alloc, &mut text, run.traces.as_slice())?;
    push_starts(alloc, &mut text, road, run.traces.as_slice())?;
    push_groups(alloc, &mut text, road, left, run)?;
    push_stop(&mut text, run.end, run.tick)?;
    Ok(Text::of(text))
}

// ---- the vehicles

fn push_entities(alloc: Global, text: &mut String, traces: &[Trace]) -> Result<(), AllocError>
    ensures { OnOk result (string_bytes text.new ≡ string_bytes text.old ++ (part_text Part.Head ++ flat_map entity traces.now)) }
{
    push_part(text, Part::Head)?;
    for trace in traces {
        push_entity(alloc, text, trace)?;
    }
    Ok(())
}

#[tactic(auto, unfolding(crate::specs::XoscText::entity))]
fn push_entity(alloc: Global, text: &mut String, trace: &Trace) -> Result<(), AllocError>
    ensures { OnOk result (string_bytes text.new ≡ string_bytes text.old ++ entity trace.now) }
{
    let vehicle = trace.path.text(alloc)?;
    push_object(text, vehicle.as_str())?;
    push_part(text, Part::Vehicle)
}

fn push_object(text: &mut String, vehicle: &str) -> Result<(), AllocError>
    ensures { OnOk result (string_bytes text.new ≡ string_bytes text.old ++ (object_line vehicle.now ++ vehicle_line vehicle.now)) }
{
    push_object_line(text, vehicle)?;
    push_vehicle_line(text, vehicle)
}

fn push_object_line(text: &mut String, vehicle: &str) -> Result<(), AllocError>
    ensures { OnOk result (string_bytes text.new ≡ string_bytes text.old ++ object_line vehicle.now) }
{
    write!(text, "    <ScenarioObject name=\"{vehicle}\">\n")
}

fn push_vehicle_line(text: &mut String, vehicle: &str) -> Result<(), AllocError>
    ensures { OnOk result (string_bytes text.new ≡ string_bytes text.old ++ vehicle_line vehicle.now) }
{
    write!(
        text,
        "      <Vehicle name=\"{vehicle}\" vehicleCategory=\"car\">\n"
    )
}

// ---- where each starts, and how fast

fn push_starts(
    alloc: Global,
    text: &mut String,
    road: Road,
    traces: &[Trace],
) -> Result<(), AllocError>
    ensures { OnOk result (string_bytes text.new ≡ string_bytes text.old ++ (part_text Part.Storyboard ++ flat_map (start road) traces.now)) }
{
    push_part(text, Part::Storyboard)?;
    for trace in traces {
        push_start(alloc, text, road, trace)?;
    }
    Ok(())
}

#[tactic(auto, unfolding(crate::specs::XoscText::start))]
fn push_start(alloc: Global, text: &mut String, road: Road, trace: &Trace) -> Result<(), AllocError>
    ensures { OnOk result (string_bytes text.new ≡ string_bytes text.old ++ start road trace.now) }
{
    match trace.samples.as_slice() {
        [first, ..] => push_first(alloc, text, road, &trace.path, first),
        [] => Ok(()),
    }
}

fn push_first(
    alloc: Global,
    text: &mut String,
    road: Road,
    path: &Path,
    first: &Sample,
) -> Result<(), AllocError>
    ensures { OnOk result (string_bytes text.new ≡ string_bytes text.old ++ (private_line (path_text path.now.steps) ++ start_lines road first.now)) }
{
    let vehicle = path.text(alloc)?;
    push_private_line(text, vehicle.as_str())?;
    push_start_lines(text, road, first)
}

fn push_private_line(text: &mut String, vehicle: &str) -> Result<(), AllocError>
    ensures { OnOk result (string_bytes text.new ≡ string_bytes text.old ++ private_line vehicle.now) }
{
    write!(text, "        <Private entityRef=\"{vehicle}\">\n")
}

#[tactic(auto, unfolding(crate::specs::XoscText::start_lines))]
fn push_start_lines(text: &mut String, road: Road, first: &Sample) -> Result<(), AllocError>
    ensures { OnOk result (string_bytes text.new ≡ string_bytes text.old ++ start_lines road first.now) }
{
    push_place(text, road, first)?;
    push_speed(text, first)
}

fn push_place(text: &mut String, road: Road, first: &Sample) -> Result<(), AllocError>
    ensures { OnOk result (string_bytes text.new ≡ string_bytes text.old ++ (part_text Part.Teleport ++ place_line road first.now)) }
{
    push_part(text, Part::Teleport)?;
    push_place_line(text, road, first)
}

fn push_place_line(text: &mut String, road: Road, first: &Sample) -> Result<(), AllocError>
    ensures { OnOk result (string_bytes text.new ≡ string_bytes text.old ++ place_line road first.now) }
{
    text.push_str("              <Position>")?;
    push_position(text, road, first)?;
    text.push_str("</Position>\n")
}

fn push_speed(text: &mut String, first: &Sample) -> Result<(), AllocError>
    ensures { OnOk result (string_bytes text.new ≡ string_bytes text.old ++ (part_text Part.Speed ++ speed_line first.now ++ part_text Part.Started)) }
{
    push_part(text, Part::Speed)?;
    push_speed_line(text, first)?;
    push_part(text, Part::Started)
}

fn push_speed_line(text: &mut String, first: &Sample) -> Result<(), AllocError>
    ensures { OnOk result (string_bytes text.new ≡ string_bytes text.old ++ speed_line first.now) }
{
    text.push_str("                  <AbsoluteTargetSpeed value=\"")?;
    push_number(text, first)?;
    text.push_str("\"/>\n")
}

/// Adds how fast a sample is.
fn push_number(text: &mut String, sample: &Sample) -> Result<(), AllocError>
    ensures { OnOk result (string_bytes text.new ≡ string_bytes text.old ++ signed_fixed 3 sample.now.speed) }
{
    push_signed_thousandths(text, sample.speed)
}

// ---- the line that each follows

fn push_groups(
    alloc: Global,
    text: &mut String,
    road: Road,
    left: &str,
    run: &Run,
) -> Result<(), AllocError>
    ensures { OnOk result (string_bytes text.new ≡ string_bytes text.old ++ (part_text Part.Story ++ flat_map (driven_group road left.now run.now.tick) run.now.traces)) }
{
    push_part(text, Part::Story)?;
    for trace in run.traces.as_slice() {
        push_driven(alloc, text, road, left, run.tick, trace)?;
    }
    Ok(())
}

/// Adds nothing for a vehicle that is left.
fn push_driven(
    alloc: Global,
    text: &mut String,
    road: Road,
    left: &str,
    tick: u32,
    trace: &Trace,
) -> Result<(), AllocError>
    ensures { OnOk result (string_bytes text.new ≡ string_bytes text.old ++ driven_group road left.now tick trace.now) }
{
    if is_left(alloc, left, trace)? {
        Ok(())
    } else {
        push_group(alloc, text, road, tick, trace)
    }
}

fn is_left(alloc: Global, left: &str, trace: &Trace) -> Result<bool, AllocError>
    ensures { IfOk result (λ is. is ≡ is_left left.now trace.now) }
{
    let vehicle = trace.path.text(alloc)?;
    Ok(vehicle.as_str() == left)
}

#[tactic(auto, unfolding(crate::specs::XoscText::group))]
fn push_group(
    alloc: Global,
    text: &mut String,
    road: Road,
    tick: u32,
    trace: &Trace,
) -> Result<(), AllocError>
    ensures { OnOk result (string_bytes text.new ≡ string_bytes text.old ++ group road tick trace.now) }
{
    let vehicle = trace.path.text(alloc)?;
    push_named_group(text, vehicle.as_str(), road, tick, trace.samples.as_slice())
}

fn push_named_group(
    text: &mut String,
    vehicle: &str,
    road: Road,
    tick: u32,
    samples: &[Sample],
) -> Result<(), AllocError>
    ensures { OnOk result (string_bytes text.new ≡ string_bytes text.old ++ group_of road tick vehicle.now samples.now) }
{
    push_event(text, vehicle)?;
    push_trajectory(text, vehicle, road, tick, samples)
}

fn push_event(text: &mut String, vehicle: &str) -> Result<(), AllocError>
    ensures { OnOk result (string_bytes text.new ≡ string_bytes text.old ++ (group_line vehicle.now ++ actor_line vehicle.now ++ part_text Part.Event)) }
{
    push_group_line(text, vehicle)?;
    push_actor_line(text, vehicle)?;
    push_part(text, Part::Event)
}

fn push_group_line(text: &mut String, vehicle: &str) -> Result<(), AllocError>
    ensures { OnOk result (string_bytes text.new ≡ string_bytes text.old ++ group_line vehicle.now) }
{
    write!(
        text,
        "        <ManeuverGroup name=\"{vehicle}\" maximumExecutionCount=\"1\">\n"
    )
}

fn push_actor_line(text: &mut String, vehicle: &str) -> Result<(), AllocError>
    ensures { OnOk result (string_bytes text.new ≡ string_bytes text.old ++ actor_line vehicle.now) }
{
    write!(
        text,
        "          <Actors selectTriggeringEntities=\"false\"><EntityRef entityRef=\"{vehicle}\"/></Actors>\n"
    )
}

fn push_trajectory(
    text: &mut String,
    vehicle: &str,
    road: Road,
    tick: u32,
    samples: &[Sample],
) -> Result<(), AllocError>
    ensures { OnOk result (string_bytes text.new ≡ string_bytes text.old ++ (trajectory_line vehicle.now ++ part_text Part.Shape ++ concat (timed (vertex_line road) tick 0 samples.now) ++ part_text Part.Followed)) }
{
    push_trajectory_line(text, vehicle)?;
    push_part(text, Part::Shape)?;
    push_vertices(text, road, tick, samples)?;
    push_part(text, Part::Followed)
}

fn push_trajectory_line(text: &mut String, vehicle: &str) -> Result<(), AllocError>
    ensures { OnOk result (string_bytes text.new ≡ string_bytes text.old ++ trajectory_line vehicle.now) }
{
    write!(
        text,
        "                <Trajectory name=\"{vehicle}\" closed=\"false\">\n"
    )
}

fn push_vertices(
    text: &mut String,
    road: Road,
    tick: u32,
    samples: &[Sample],
) -> Result<(), AllocError>
    ensures { OnOk result (string_bytes text.new ≡ string_bytes text.old ++ concat (timed (vertex_line road) tick 0 samples.now)) }
{
    for (index, sample) in samples.iter().enumerate() {
        push_vertex(text, road, index as u128 * u128::from(tick), sample)?;
    }
    Ok(())
}

#[tactic(auto, unfolding(crate::specs::XoscText::vertex_line))]
fn push_vertex(text: &mut String, road: Road, time: u128, sample: &Sample) -> Result<(), AllocError>
    ensures { OnOk result (string_bytes text.new ≡ string_bytes text.old ++ vertex_line road time sample.now) }
{
    push_time_part(text, time)?;
    push_corner_part(text, road, sample)
}

fn push_time_part(text: &mut String, time: u128) -> Result<(), AllocError>
    ensures { OnOk result (string_bytes text.new ≡ string_bytes text.old ++ time_part time) }
{
    text.push_str("                  <Vertex time=\"")?;
    push_thousandths(text, time)
}

fn push_corner_part(text: &mut String, road: Road, sample: &Sample) -> Result<(), AllocError>
    ensures { OnOk result (string_bytes text.new ≡ string_bytes text.old ++ corner_part road sample.now) }
{
    text.push_str("\"><Position>")?;
    push_position(text, road, sample)?;
    push_part(text, Part::Corner)
}

// ---- when the run ends

fn push_stop(text: &mut String, end: u32, tick: u32) -> Result<(), AllocError>
    ensures { OnOk result (string_bytes text.new ≡ string_bytes text.old ++ (part_text Part.Stop ++ end_line (end * tick) ++ part_text Part.End)) }
{
    push_part(text, Part::Stop)?;
    push_end_line(text, u128::from(end) * u128::from(tick))?;
    push_part(text, Part::End)
}

fn push_end_line(text: &mut String, time: u128) -> Result<(), AllocError>
    ensures { OnOk result (string_bytes text.new ≡ string_bytes text.old ++ end_line time) }
{
    text.push_str("            <SimulationTimeCondition value=\"")?;
    push_thousandths(text, time)?;
    text.push_str("\" rule=\"greaterOrEqual\"/>\n")
}
