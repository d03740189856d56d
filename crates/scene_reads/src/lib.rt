//! Which constraints and modifiers of a scene can be there: those of which the scene has all that they read.
#![tactic(auto)]

mod driven;
mod readable;
mod reads;

pub use composition::PathIndex;
pub use readable::{readable_modifiers, readable_occurrences};
