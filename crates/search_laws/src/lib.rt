//! What the search for a point of a flat form keeps true, and the laws of its steps.
#![tactic(auto)]

mod decision;

pub use decision::Decision;

// Items of crates below, for the crates above.
pub use linear_sums::{Facing, MOST_PICKS, Pick, facing_pair, sum_false};
pub use record_trees::{Line, Record, refuted};
