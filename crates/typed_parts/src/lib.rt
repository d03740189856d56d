//! What the typing of each node of an expression asks of its parts, whatever the node is.
#![tactic(auto)]

mod checks;
mod infos;
mod parts;

pub use checks::{with_part, with_parts};
pub use infos::{NO_EXPONENTS, begun, truth_at};
pub use parts::{
    are_joined_wide, are_no_numbers, are_no_truths, are_numbers, are_whole, differ_in_units,
    fault_if, have_other_units, is_joined_wide, is_no_number, is_no_truth, is_whole, least,
};
