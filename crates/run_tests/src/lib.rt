//! Tests of runs that are read from their texts, and the law that what is written is read back.
#![tactic(auto)]

mod laws;
#[cfg(test)]
mod texts;

pub use laws::{migrations_are_read_back, written_runs_are_read_back};
