//! The flat form of a scene: the ends of its slots, and a rule for each of its items, with the names of the rules.
#![tactic(auto)]

mod constraints;
mod enums;
mod form;
mod marks;
mod names;
mod rules;

pub use form::flatten;
pub use names::rule_names;
pub use scene_rules::Run;
pub use slot_ends::{Scene, bounds, slot_names};
