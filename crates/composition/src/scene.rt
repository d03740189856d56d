//! Scenes, and what they tell.

ghost use Rattle.std.specs.Prelude.{◌≡◌, filter_map};
ghost use Rattle.composition.specs.SeenParts.{choice_at, value_at, phase_at, vehicle_at};
ghost use Rattle.expr_nodes.specs.osc_base.Paths.{then_duration};
ghost use Rattle.keep_rules.specs.path_index.Places.{Places};

use crate::Setting;
use crate::lists::{ListIndexes, PartIndexes, SpotLists};
use crate::part::{Binding, ModifierSpot, Occurrence, Spot};
use expr_nodes::{Row, TextTable};

/// Everything that may be there in a run of a scenario, in the order of expansion. All paths in it are home paths. The
/// texts are those that a field of type `string` may hold.
///
/// The lists of one sort and the indexes are worked out once, when the scene is made.
#[derive(Drop)]
pub struct Scene {
    pub(crate) spots: Row<Spot>,
    pub(crate) bindings: Row<Binding>,
    pub(crate) occurrences: Row<Occurrence>,
    pub(crate) modifiers: Row<ModifierSpot>,
    pub(crate) setting: Setting,
    pub(crate) texts: TextTable,
    pub(crate) lists: SpotLists,
    pub(crate) part_indexes: PartIndexes,
    pub(crate) list_indexes: ListIndexes,
    ghost choices_are: { lists.choices ≡ filter_map choice_at spots },
    ghost values_are: { lists.values ≡ filter_map value_at spots },
    ghost phases_are: { lists.phases ≡ filter_map phase_at spots },
    ghost vehicles_are: { lists.vehicles ≡ filter_map vehicle_at spots },
    ghost spots_at: { Places part_indexes.spots (λ p. p) (λ s. s.path) spots },
    ghost durations_at: { Places part_indexes.durations then_duration (λ s. s.path) spots },
    ghost bindings_at: { Places part_indexes.bindings (λ p. p) (λ b. b.at) bindings },
    ghost choices_at: { Places list_indexes.choices (λ p. p) (λ s. s.path) lists.choices },
    ghost values_at: { Places list_indexes.values (λ p. p) (λ s. s.path) lists.values },
    ghost phases_at: { Places list_indexes.phases (λ p. p) (λ s. s.path) lists.phases },
    ghost phase_durations_at: { Places list_indexes.phase_durations then_duration (λ s. s.path) lists.phases },
}
