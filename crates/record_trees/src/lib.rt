//! Refutation records: trees of cuts over a flat form's box, and when their lines are accepted.
#![tactic(auto)]

mod record;

pub use record::{Line, Record, refuted};

// Crates below, for the crates above.
pub use linear_sums;
