//! Looking things up by their paths.
#![tactic(auto)]

mod index;

pub use index::{HasPath, PathIndex, duration_of, found, found_timed};

// Crates below, for the crates above.
pub use osc_base;
