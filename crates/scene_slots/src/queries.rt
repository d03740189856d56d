//! What the slots of a scene tell.

ghost use Rattle.std.specs.Prelude.{◌≡◌, ◌<◌, ◌≤◌, ◌^◌, ◌*◌, ◌+◌, ℕ, map, option_map, IfOk, IfSome};
ghost use Rattle.osc_base.specs.declared.listing.SlotName.{SlotName};
ghost use Rattle.path_index.specs.Places.{Places};
ghost use Rattle.flat_shapes.specs.composition.Scenes.{choices as all_choices, values as all_values, phases as all_phases, vehicles as all_vehicles, root_do as whole};
ghost use Rattle.scene_slots.specs.declared.queries.Vehicle.{Vehicle};
ghost use Rattle.flat_shapes.specs.composition.SeenScenes.{seen_scene};
ghost use Rattle.flat_shapes.specs.Room.{longest_tick};
ghost use Rattle.scene_slots.specs.Numbers.{past as all_slots, slot_after as number_after};
ghost use Rattle.scene_slots.specs.Places.{end_slot};
ghost use Rattle.scene_slots.specs.SeenSlots.{layout_of};
ghost use Rattle.scene_slots.specs.Tracks.{IsTrack, track_slot, track_by};

use crate::counts::slot_counts;
use crate::slots::SceneSlots;
use crate::track::Track;
use flat_shapes::Scene;
use osc_base::{Path, Row, Step, Text};
use path_index::{HasPath, PathIndex};
use std::alloc::{AllocError, Global};

/// A vehicle, for an index by path.
#[derive(Drop)]
pub(crate) struct Vehicle {
    path: Path,
}

impl HasPath for Vehicle {
    ghost path_of = { λ v. v.path };

    fn path(&self) -> &Path {
        &self.path
    }
}

impl<'a> SceneSlots<'a> {
    /// The slots of a scene.
    pub fn of(alloc: Global, scene: &'a Scene) -> Result<SceneSlots<'a>, AllocError>
        requires few { all_slots (seen_scene scene.now) < 2 ^ 32 }
        requires short { (seen_scene scene.now).setting.tick ≤ longest_tick }
        requires ticks { (seen_scene scene.now).setting.ticks ≤ 600 }
        ensures { IfOk result (λ s. s.scene.now ≡ scene.now) }
    {
        let counts = slot_counts(scene);
        let choices = choice_index(alloc, scene)?;
        let phases = phase_index(alloc, scene)?;
        let values = value_index(alloc, scene)?;
        let vehicles = vehicle_index(alloc, scene)?;
        let root = root_do(alloc)?;
        Ok(SceneSlots {
            scene,
            counts,
            choices,
            phases,
            values,
            vehicles,
            root,
        })
    }

    /// The scene.
    pub fn scene(&self) -> &'a Scene
        ensures { result.now ≡ self.now.scene.now }
    {
        self.scene
    }

    /// The slot of the `one_of` at the path.
    pub fn choice(&self, path: &Path) -> u32
        ensures { result ≡ (layout_of self.now).slot (SlotName.Choice path.now) }
    {
        slot_after(self.counts.past, 0, 1, 0, self.choices.get(path))
    }

    /// The slot of the start of the phase at the path.
    pub fn start(&self, path: &Path) -> u32
        ensures { result ≡ (layout_of self.now).slot (SlotName.Start path.now) }
    {
        let first = self.counts.first_phase;
        slot_after(self.counts.past, first, 2, 0, self.phases.get(path))
    }

    /// The slot of its end.
    pub fn end(&self, path: &Path) -> u32
        ensures { result ≡ (layout_of self.now).slot (SlotName.End path.now) }
    {
        let first = self.counts.first_phase;
        slot_after(self.counts.past, first, 2, 1, self.phases.get(path))
    }

    /// The slot of the value at the path.
    pub fn value(&self, path: &Path) -> u32
        ensures { result ≡ (layout_of self.now).slot (SlotName.Value path.now) }
    {
        let first = self.counts.first_value;
        slot_after(self.counts.past, first, 1, 0, self.values.get(path))
    }

    /// The slot of the run's end, if the scenario has a `do`.
    pub fn whole_end(&self) -> Option<u32>
        ensures { result ≡ end_slot (seen_scene self.now.scene.now) }
    {
        end_of(self.counts.first_phase, self.phases.get(&self.root))
    }

    /// The slots of the vehicle at the path.
    pub fn track(&self, path: &Path) -> Track
        ensures slots { IsTrack (seen_scene self.now.scene.now) path.now result }
        ensures small { track_slot result ((seen_scene self.now.scene.now).setting.ticks * 3 + 2) < 2 ^ 32 }
    {
        let counts = self.counts;
        track_of(
            counts.past,
            counts.first_sample,
            counts.track,
            self.vehicles.get(path),
        )
    }
}

/// The slots of a vehicle, by its place.
fn track_of(past: u32, first: u32, each: u32, place: Option<u32>) -> Track
    requires { IfSome place (λ i. first + i * each + each < 2 ^ 32) }
    ensures { result ≡ track_by past first each place }
{
    match place {
        Some(place) => Track::Found {
            first: first + place * each,
        },
        None => Track::Missing { past },
    }
}

/// The number of a slot, by the place of what it belongs to.
fn slot_after(past: u32, first: u32, each: u32, own: u32, place: Option<u32>) -> u32
    requires { IfSome place (λ i. first + i * each + own < 2 ^ 32) }
    ensures { result ≡ number_after past first each own place }
{
    match place {
        Some(place) => first + place * each + own,
        None => past,
    }
}

/// The slot of the end of a phase, by its place.
fn end_of(first: u32, place: Option<u32>) -> Option<u32>
    requires { IfSome place (λ i. first + i * 2 + 1 < 2 ^ 32) }
    ensures { result ≡ option_map (λ i. first + i * 2 + 1) place }
{
    match place {
        Some(place) => Some(first + place * 2 + 1),
        None => None,
    }
}

/// The path of the named scenario's `do`.
fn root_do(alloc: Global) -> Result<Path, AllocError>
    ensures { IfOk result (λ p. p ≡ whole) }
{
    let mut steps = Row::new(alloc);
    steps.push(Step::Name(Text::copy(alloc, "do")?))?;
    Ok(Path { steps })
}

/// An index by path of each `one_of`.
fn choice_index(alloc: Global, scene: &Scene) -> Result<PathIndex, AllocError>
    ensures { IfOk result (λ t. Places t (λ p. p) (λ c. c.path) (all_choices (seen_scene scene.now))) }
{
    PathIndex::of(alloc, scene.choices())
}

/// An index by path of phases.
fn phase_index(alloc: Global, scene: &Scene) -> Result<PathIndex, AllocError>
    ensures { IfOk result (λ t. Places t (λ p. p) (λ s. s.path) (all_phases (seen_scene scene.now))) }
{
    PathIndex::of(alloc, scene.phases())
}

/// An index by path of values.
fn value_index(alloc: Global, scene: &Scene) -> Result<PathIndex, AllocError>
    ensures { IfOk result (λ t. Places t (λ p. p) (λ v. v.path) (all_values (seen_scene scene.now))) }
{
    PathIndex::of(alloc, scene.values())
}

/// An index by path of vehicles.
fn vehicle_index(alloc: Global, scene: &Scene) -> Result<PathIndex, AllocError>
    ensures { IfOk result (λ t. Places t (λ p. p) (λ v. v) (all_vehicles (seen_scene scene.now))) }
{
    let vehicles = vehicle_row(alloc, scene.vehicles())?;
    PathIndex::of(alloc, vehicles.as_slice())
}

/// Vehicles by their paths.
fn vehicle_row(alloc: Global, paths: &[Path]) -> Result<Vec<Vehicle>, AllocError>
    ensures { IfOk result (λ vs. map (λ (v : Vehicle). v.path) vs.items ≡ paths.now) }
{
    let mut vehicles = Vec::new(alloc);
    'paths: for path in paths {
        vehicles.push(Vehicle {
            path: path.copy(alloc)?,
        })?;
    }
    Ok(vehicles)
}
