//! The constraints that a work of an expansion gives.
#![tactic(auto)]

mod arguments;
mod required;
mod works;

pub use scene_expansion::Counts;
pub use text_constraints::Occurrence;
pub use works::push_occurrences;
