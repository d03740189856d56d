//! The slots of a scene.

ghost use Rattle.std.specs.Prelude.{◌≡◌, ◌≤◌, ◌<◌, ◌^◌};
ghost use Rattle.path_index.specs.Places.{Places};
ghost use Rattle.flat_shapes.specs.composition.Scenes.{choices as all_choices, values as all_values, phases as all_phases, vehicles as all_vehicles, root_do};
ghost use Rattle.flat_shapes.specs.composition.SeenScenes.{seen_scene};
ghost use Rattle.flat_shapes.specs.Room.{longest_tick};
ghost use Rattle.scene_slots.specs.Numbers.{first_phase, first_value, first_sample, past, track_length};

use crate::counts::Counts;
use flat_shapes::Scene;
use osc_base::Path;
use path_index::PathIndex;

/// The slots of a scene, with an index by path of what they belong to.
#[derive(Drop)]
pub struct SceneSlots<'a> {
    pub(crate) scene: &'a Scene,
    pub(crate) counts: Counts,
    pub(crate) choices: PathIndex,
    pub(crate) phases: PathIndex,
    pub(crate) values: PathIndex,
    pub(crate) vehicles: PathIndex,
    pub(crate) root: Path,
    ghost choices_at: { Places choices (λ p. p) (λ c. c.path) (all_choices (seen_scene scene.now)) },
    ghost phases_at: { Places phases (λ p. p) (λ s. s.path) (all_phases (seen_scene scene.now)) },
    ghost values_at: { Places values (λ p. p) (λ v. v.path) (all_values (seen_scene scene.now)) },
    ghost vehicles_at: { Places vehicles (λ p. p) (λ v. v) (all_vehicles (seen_scene scene.now)) },
    ghost phases_from: { counts.first_phase ≡ first_phase (seen_scene scene.now) },
    ghost values_from: { counts.first_value ≡ first_value (seen_scene scene.now) },
    ghost samples_from: { counts.first_sample ≡ first_sample (seen_scene scene.now) },
    ghost past_is: { counts.past ≡ past (seen_scene scene.now) },
    ghost few: { past (seen_scene scene.now) < 2 ^ 32 },
    ghost root_is: { root ≡ root_do },
    ghost tracks_have: { counts.track ≡ track_length (seen_scene scene.now) },
    ghost short: { (seen_scene scene.now).setting.tick ≤ longest_tick },
}
