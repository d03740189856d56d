//! The traces of vehicles.

ghost use Rattle.std.specs.Prelude.{◌≡◌, ◌≤◌, ◌++◌, ◌+◌, flat_map, map, IfOk, OnOk};
ghost use Rattle.std.specs.List.{range_with_len};
ghost use Rattle.scene_slots.specs.field_flatten.Points.{sample_named, slot_value};
ghost use Rattle.scene_runs.specs.Entries.{sample_by, trace_entry, trace_named};
ghost use Rattle.scene_slots.specs.SeenSlots.{scene_of};

use crate::conditions::stands;
use crate::numbers::number_in;
use osc_base::{Path, Row, Sample, SampleSlots};
use scene_slots::{SceneSlots, Trace};
use std::alloc::{AllocError, Global};

/// The sample in these slots.
fn sample_in(point: &[i64], slots: SampleSlots) -> Sample
    ensures { result ≡ sample_by point.now slots }
{
    Sample {
        lane: number_in(point, slots.lane),
        position: number_in(point, slots.position),
        speed: number_in(point, slots.speed),
    }
}

/// The samples of a vehicle, one for each tick from 0 to the end.
fn samples_of(
    alloc: Global,
    slots: &SceneSlots<'_>,
    point: &[i64],
    end: u32,
    vehicle: &Path,
) -> Result<Row<Sample>, AllocError>
    requires within { end ≤ (scene_of slots.now).setting.ticks }
    requires few { (scene_of slots.now).setting.ticks ≤ 600 }
    ensures { IfOk result (λ ss. ss ≡ map (sample_named (slot_value (scene_of slots.now) point.now) vehicle.now) (range_with_len 0 (end + 1))) }
{
    let track = slots.track(vehicle);
    let count = end + 1;
    let mut samples = Row::new(alloc);
    'ticks: for tick in 0..count {
        samples.push(sample_in(point, track.at(tick)))?;
    }
    Ok(samples)
}

/// The trace of a vehicle.
fn trace_of(
    alloc: Global,
    slots: &SceneSlots<'_>,
    point: &[i64],
    end: u32,
    vehicle: &Path,
) -> Result<Trace, AllocError>
    requires within { end ≤ (scene_of slots.now).setting.ticks }
    requires few { (scene_of slots.now).setting.ticks ≤ 600 }
    ensures { IfOk result (λ t. t ≡ trace_named (slot_value (scene_of slots.now) point.now) end vehicle.now) }
{
    let samples = samples_of(alloc, slots, point, end, vehicle)?;
    let path = vehicle.copy(alloc)?;
    Ok(Trace { path, samples })
}

/// Puts the trace of a vehicle at the end, if the vehicle is there.
fn push_trace(
    alloc: Global,
    slots: &SceneSlots<'_>,
    point: &[i64],
    end: u32,
    vehicle: &Path,
    traces: &mut Row<Trace>,
) -> Result<(), AllocError>
    requires within { end ≤ (scene_of slots.now).setting.ticks }
    requires few { (scene_of slots.now).setting.ticks ≤ 600 }
    ensures { OnOk result (traces.new ≡ traces.old ++ trace_entry (scene_of slots.now) (slot_value (scene_of slots.now) point.now) end vehicle.now) }
{
    if stands(slots, point, vehicle) {
        traces.push(trace_of(alloc, slots, point, end, vehicle)?)
    } else {
        Ok(())
    }
}

/// The traces of those vehicles that are there.
pub(crate) fn traces_of(
    alloc: Global,
    slots: &SceneSlots<'_>,
    point: &[i64],
    end: u32,
    vehicles: &[Path],
) -> Result<Row<Trace>, AllocError>
    requires within { end ≤ (scene_of slots.now).setting.ticks }
    requires few { (scene_of slots.now).setting.ticks ≤ 600 }
    ensures { IfOk result (λ ts. ts ≡ flat_map (trace_entry (scene_of slots.now) (slot_value (scene_of slots.now) point.now) end) vehicles.now) }
{
    let mut traces = Row::new(alloc);
    'vehicles: for vehicle in vehicles {
        push_trace(alloc, slots, point, end, vehicle, &mut traces)?;
    }
    Ok(traces)
}
