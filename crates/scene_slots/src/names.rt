//! The names of the slots of a scene.

ghost use Rattle.std.specs.Prelude.{◌≡◌, ◌≤◌, ◌++◌, flat_map, IfOk, OnOk};
ghost use Rattle.std.specs.List.{range_with_len};
ghost use Rattle.flat_shapes.specs.composition.SeenScenes.{seen_scene};
ghost use Rattle.flat_shapes.specs.composition.Slots.{slot_names as names_of};
ghost use Rattle.scene_slots.specs.NameRows.{choice_names, end_names, phase_names, value_names, track_names};
ghost use Rattle.flat_shapes.specs.composition.Slots.{sample_names};

use flat_shapes::{ChoiceSpot, PhaseSpot, Scene, ValueSpot};
use osc_base::{Path, Row, SlotName};
use std::alloc::{AllocError, Global};

/// The names of all slots, in order: each choice, the start and the end of each phase, each value, and the lane,
/// position and speed of each vehicle at each tick.
pub fn slot_names(alloc: Global, scene: &Scene) -> Result<Row<SlotName>, AllocError>
    requires { (seen_scene scene.now).setting.ticks ≤ 600 }
    ensures { IfOk result (λ ns. ns ≡ names_of (seen_scene scene.now)) }
{
    let mut names = Row::new(alloc);
    push_choices(alloc, scene.choices(), &mut names)?;
    push_phases(alloc, scene.phases(), &mut names)?;
    push_values(alloc, scene.values(), &mut names)?;
    push_tracks(
        alloc,
        scene.vehicles(),
        scene.setting().ticks + 1,
        &mut names,
    )?;
    Ok(names)
}

fn push_choices(
    alloc: Global,
    choices: &[ChoiceSpot],
    names: &mut Row<SlotName>,
) -> Result<(), AllocError>
    ensures { OnOk result (names.new ≡ names.old ++ choice_names choices.now) }
{
    'choices: for choice in choices {
        let path = choice.path.copy(alloc)?;
        names.push(SlotName::Choice { path })?;
    }
    Ok(())
}

fn push_phases(
    alloc: Global,
    phases: &[PhaseSpot],
    names: &mut Row<SlotName>,
) -> Result<(), AllocError>
    ensures { OnOk result (names.new ≡ names.old ++ phase_names phases.now) }
{
    'phases: for phase in phases {
        push_phase(alloc, &phase.path, names)?;
    }
    Ok(())
}

fn push_phase(alloc: Global, path: &Path, names: &mut Row<SlotName>) -> Result<(), AllocError>
    ensures { OnOk result (names.new ≡ names.old ++ end_names path.now) }
{
    let start = path.copy(alloc)?;
    names.push(SlotName::Start { path: start })?;
    let end = path.copy(alloc)?;
    names.push(SlotName::End { path: end })
}

fn push_values(
    alloc: Global,
    values: &[ValueSpot],
    names: &mut Row<SlotName>,
) -> Result<(), AllocError>
    ensures { OnOk result (names.new ≡ names.old ++ value_names values.now) }
{
    'values: for value in values {
        let path = value.path.copy(alloc)?;
        names.push(SlotName::Value { path })?;
    }
    Ok(())
}

fn push_tracks(
    alloc: Global,
    vehicles: &[Path],
    count: u32,
    names: &mut Row<SlotName>,
) -> Result<(), AllocError>
    ensures { OnOk result (names.new ≡ names.old ++ track_names (range_with_len 0 count) vehicles.now) }
{
    'vehicles: for vehicle in vehicles {
        push_track(alloc, vehicle, count, names)?;
    }
    Ok(())
}

fn push_track(
    alloc: Global,
    vehicle: &Path,
    count: u32,
    names: &mut Row<SlotName>,
) -> Result<(), AllocError>
    ensures { OnOk result (names.new ≡ names.old ++ flat_map (sample_names vehicle.now) (range_with_len 0 count)) }
{
    'ticks: for tick in 0..count {
        push_sample(alloc, vehicle, tick, names)?;
    }
    Ok(())
}

fn push_sample(
    alloc: Global,
    vehicle: &Path,
    tick: u32,
    names: &mut Row<SlotName>,
) -> Result<(), AllocError>
    ensures { OnOk result (names.new ≡ names.old ++ sample_names vehicle.now tick) }
{
    let path = vehicle.copy(alloc)?;
    names.push(SlotName::Lane { path, tick })?;
    let path = vehicle.copy(alloc)?;
    names.push(SlotName::Position { path, tick })?;
    let path = vehicle.copy(alloc)?;
    names.push(SlotName::Speed { path, tick })
}
