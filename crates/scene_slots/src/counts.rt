//! How many slots come before those of phases, values and vehicles.

ghost use Rattle.std.specs.Prelude.{◌≡◌, ◌<◌, ◌≤◌, ◌^◌, ◌+◌, ◌*◌};
ghost use Rattle.flat_shapes.specs.composition.SeenScenes.{seen_scene};
ghost use Rattle.scene_slots.specs.Numbers.{first_phase as phases_from, first_value as values_from, first_sample as samples_from, past as past_slots, track_length};

use flat_shapes::Scene;

/// The first slot of a phase, of a value and of a vehicle, how many slots a vehicle has, and the number after those of
/// all slots.
#[derive(Debug, Clone, Copy)]
pub(crate) struct Counts {
    pub first_phase: u32,
    pub first_value: u32,
    pub first_sample: u32,
    pub track: u32,
    pub past: u32,
}

/// Where the slots of a scene begin.
pub(crate) fn slot_counts(scene: &Scene) -> Counts
    requires few { past_slots (seen_scene scene.now) < 2 ^ 32 }
    requires short { (seen_scene scene.now).setting.ticks ≤ 600 }
    ensures phases { result.first_phase ≡ phases_from (seen_scene scene.now) }
    ensures values { result.first_value ≡ values_from (seen_scene scene.now) }
    ensures samples { result.first_sample ≡ samples_from (seen_scene scene.now) }
    ensures track { result.track ≡ track_length (seen_scene scene.now) }
    ensures past { result.past ≡ past_slots (seen_scene scene.now) }
{
    let choices = scene.choices().len();
    let phases = scene.phases().len();
    let values = scene.values().len();
    let vehicles = scene.vehicles().len();
    counts_of(choices, phases, values, vehicles, scene.setting().ticks)
}

/// Where the slots begin, by how many there are of each.
fn counts_of(choices: usize, phases: usize, values: usize, vehicles: usize, ticks: u32) -> Counts
    requires few { choices + phases * 2 + values + vehicles * ((ticks + 1) * 3) < 2 ^ 32 }
    requires short { ticks ≤ 600 }
    ensures phases { result.first_phase ≡ choices }
    ensures values { result.first_value ≡ choices + phases * 2 }
    ensures samples { result.first_sample ≡ choices + phases * 2 + values }
    ensures track { result.track ≡ (ticks + 1) * 3 }
    ensures past { result.past ≡ choices + phases * 2 + values + vehicles * ((ticks + 1) * 3) }
{
    let first_value = choices + phases * 2;
    let first_sample = first_value + values;
    let track = (ticks + 1) * 3;
    Counts {
        first_phase: choices as u32,
        first_value: first_value as u32,
        first_sample: first_sample as u32,
        track,
        past: past_of(first_sample, vehicles, track),
    }
}

/// So many slots and those of vehicles.
fn past_of(first: usize, vehicles: usize, track: u32) -> u32
    requires { first + vehicles * track < 2 ^ 32 }
    ensures { result ≡ first + vehicles * track }
{
    (first + vehicles * track as usize) as u32
}
