//! Conditional subtypes: under which values of a field a type has further members.
#![tactic(auto)]

mod condition;
mod laws;
mod subtypes;

pub use condition::{Condition, holds};
pub use laws::tell_conditions;
pub use subtypes::Subtypes;
