//! The search for a run of a scene.
#![tactic(auto)]

mod finding;
mod plan;
mod search;

pub use finding::Finding;
pub use search::find_run;
