//! Which later constraints override a default.
#![tactic(auto)]

mod rows;
mod targets;

pub use targets::Targets;

// Crates below, for the crates above.
pub use path_index;
