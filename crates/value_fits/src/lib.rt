//! Values that are given to something of a known kind: arguments, initial values, stated durations and constraints.
#![tactic(auto)]

mod compared;
mod ends;
mod fits;
mod given;

pub use compared::with_compared;
pub use fits::Target;
pub use given::{with_argument, with_constraint, with_duration, with_initial};
