//! Tests of the search on flat forms that are made by hand.
#![tactic(auto)]

mod flatness;
pub mod forms;

pub use flatness::is_flat;

#[cfg(test)]
mod answers;
#[cfg(test)]
mod records;
