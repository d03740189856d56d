//! The faults and the typed forms of operators, of parts that are known.
#![tactic(auto)]

pub mod constants;
pub mod products;
pub mod quotients;
mod relations;
mod rows;
pub mod spans;
pub mod steps;
mod sums;
mod truths;
mod within;

pub use typed_parts::{are_no_numbers, are_whole, fault_if, least, with_parts};
