//! The scenario of a name, in a program whose declarations have no fault.
#![tactic(auto)]

mod declared;
mod named;
mod sound;

pub use named::{NameStop, NamedScenario, find_scenario};
pub use program_uses::{ProgramMembers, Setting, Spot, TypeId, Types};
