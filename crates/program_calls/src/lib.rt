//! The `do` of a scenario: its phases, its labels, the scopes of its expressions, what its invocations call, and the forms
//! of modifiers.
#![tactic(auto)]

mod actors;
mod arguments;
mod callees;
mod few;
mod first_tokens;
mod kinds;
mod label_paths;
mod labels;
mod modifier_forms;
mod name_exprs;
mod owned;
mod phases;
mod scopes;

pub use actors::{actor_checked, actor_type, called, head_place, resolved_actor};
pub use arguments::argument_named;
pub use callees::{Callee, actor_of, behaviour_named, callee_of};
pub use composition::{
    Binding, Condition, Content, Guard, ModifierSpot, Occurrence, PhaseKind, Scene, Setting, Spot,
    ValueRange,
};
pub use expr_nodes::{LabelTable, TextTable, Turn, TypeId, TypeKind, Types};
pub use expr_typing::others::it;
pub use expr_typing::steps::pointed;
pub use first_tokens::first_place;
pub use kinds::{is_drive, is_vehicle};
pub use label_paths::{begins_with_label, begins_with_label_at};
pub use labels::{do_labels, invoked, no_labels};
pub use modifier_forms::{ModifierForm, is_modifier, modifier_form};
pub use name_exprs::{head_name, is_path, name_of};
pub use owned::owned_behaviour;
pub use phases::{PhasePlace, PlacedPhase, phases_in};
pub use scopes::scope_at;
