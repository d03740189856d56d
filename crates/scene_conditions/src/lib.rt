//! The conditions under which constraints and modifiers of a scene are there.
#![tactic(auto)]

mod condition;
mod conditions;
mod reads;
mod there;

pub use composition::{Guard, ModifierSpot, Occurrence, PhaseKind};
pub use condition::Condition;
pub use conditions::Conditions;
pub use there::{modifier_presence, presence};
