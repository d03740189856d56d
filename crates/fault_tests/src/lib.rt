//! Tests of the first fault of headings and of members, on programs.
#![tactic(auto)]

#[cfg(test)]
mod chains;
#[cfg(test)]
mod programs;
mod source_fault;

pub use source_fault::told;
