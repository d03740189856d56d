//! When modifiers hold, as rules over the slots of samples.
#![tactic(auto)]

mod truth;

pub use truth::true_at;
