//! The rules of the constraints, enums and phases of a scene.
#![tactic(auto)]

mod constraints;
mod enums;
mod phases;
mod spans;

pub use constraints::{default_rule, hard_rule};
pub use enums::enum_rule;
pub use phases::arranged_rule;
pub use rule_parts::{ModifierSpot, Occurrence, PhaseSpot, Run, SceneSlots};
