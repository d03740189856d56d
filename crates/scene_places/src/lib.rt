//! Where the paths of a text lead in a scene: the homes of paths, and expressions with their paths at their homes.
#![tactic(auto)]

mod expressions;
mod places;

pub use expressions::{moved, moved_part};
pub use places::Places;
pub use scene_texts::Scene;
