//! The scene of the scenario that words name in a program that was loaded.
#![tactic(auto)]

mod found;
mod refusals;
mod scenes;
mod stops;

pub use found::FoundScene;
pub use scenes::scene_in;
pub use stops::reply_to_stop;
