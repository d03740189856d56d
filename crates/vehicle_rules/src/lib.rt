//! The rules of modifiers and of the motion of vehicles, tick by tick.
#![tactic(auto)]

mod modifiers;
mod motion;
mod quantity;
mod relations;

pub use modifiers::modifier_rules;
pub use motion::motion_rules;
