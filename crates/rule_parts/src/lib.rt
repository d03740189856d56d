//! What the rules of a scene's items are made of: conditions, rows of rules, and comparisons of two slots.
#![tactic(auto)]

mod comparisons;
mod conditions;

pub use comparisons::{at_most, equal};
pub use conditions::{condition_row, each_under, guard_row, under, with_row};
pub use scene_conditions::{
    Condition, ModifierSpot, Occurrence, PhaseKind, modifier_presence, presence,
};
pub use scene_slots::{PhaseSpot, Run, SceneSlots, common_scale, number, rows, rule, terms};
