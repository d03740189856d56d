//! The types of a program are built here, or its first fault is found.
#![tactic(auto)]

mod build;
mod refusing;

pub use build::{BuildStop, build_types};
