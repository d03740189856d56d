//! The plan of a scene.

ghost use Rattle.std.specs.Prelude.{◌≡◌, IfOk, length};
ghost use Rattle.flat_forms.specs.composition.Scenes.{choices as all_choices};
ghost use Rattle.flat_forms.specs.composition.SeenScenes.{seen_scene};
ghost use Rattle.scene_search.specs.Choices.{grid_of, plan_of};
ghost use Rattle.vehicle_plans.specs.Grids.{numbered as numbered_as};

use box_eval::osc_base::Row;
use flat_forms::Scene;
use seeded_search::Entry;
use std::alloc::{AllocError, Global};
use vehicle_plans::{Grid, numbered};

/// The plan of a scene.
pub(crate) fn plan_of(alloc: Global, scene: &Scene) -> Result<Row<Entry>, AllocError>
    ensures { IfOk result (λ es. es ≡ plan_of (seen_scene scene.now)) }
{
    vehicle_plans::plan_of(alloc, choices_of(scene), grid_of(scene))
}

/// How many slots choices have.
fn choices_of(scene: &Scene) -> u32
    ensures { result ≡ numbered_as (length (all_choices (seen_scene scene.now))) }
{
    numbered(scene.choices().len() as u128)
}

/// Where the slots of the scene's vehicles stand.
fn grid_of(scene: &Scene) -> Grid
    ensures { result ≡ grid_of (seen_scene scene.now) }
{
    let choices = scene.choices().len() as u128;
    let phases = scene.phases().len() as u128;
    let values = scene.values().len() as u128;
    let setting = scene.setting();
    Grid {
        first: numbered(choices + phases * 2 + values),
        vehicles: numbered(scene.vehicles().len() as u128),
        ticks: setting.ticks,
        tick: setting.tick,
    }
}
