//! The typing of names, literals and lists in expressions: the first fault, and the typed form.
#![tactic(auto)]

mod dots;
mod fields;
mod held;
pub mod lists;
pub mod literals;
pub mod meanings;
mod names;
pub mod others;
pub mod physical;
pub mod steps;

pub use names::has_label;
