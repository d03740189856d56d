//! What the scenarios of a program come to as scenes.
#![tactic(auto)]

mod large;
mod layout;
mod scenes;

pub use large::is_too_large;
pub use layout::ProgramLayout;
pub use named_scenario::{NameStop, NamedScenario, Setting, find_scenario};
pub use scenes::scene_of;
pub use work_parts::Scene;
