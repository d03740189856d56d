//! The scene of a named scenario, laid out by its definition.
#![tactic(auto)]

mod counts;
mod laid;
mod large;
mod layout;
mod limits;
mod named;
mod walk;
mod whole;
mod work;

pub use counts::Counts;
pub use large::is_too_large;
pub use layout::{Layout, WorkLayout};
pub use named::{ExpandStop, expand, scene_of};
pub use program_calls::{
    Binding, Callee, Content, ModifierForm, ModifierSpot, PhaseKind, PlacedPhase, Scene, Spot,
    ValueRange, actor_checked, argument_named, callee_of, first_place, invoked, it, modifier_form,
    name_of, phases_in, pointed, scope_at,
};
pub use scene_reads::PathIndex;
pub use scene_texts::{
    Bound, Moves, add, arguments_tokens, from_object, then_do, then_duration, then_index,
    then_member,
};
pub use walk::MOST_WORKS;
pub use work::{Call, Work};
