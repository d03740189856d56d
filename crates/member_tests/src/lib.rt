//! Tests of the enums, the heirs and the members of a program that is loaded from its source.
#![tactic(auto)]

mod programs;

pub use programs::{PARTS, loaded};

#[cfg(test)]
mod enums;
#[cfg(test)]
mod heirs;
#[cfg(test)]
mod members;
#[cfg(test)]
mod nested;
