//! What a run holds at each path, and what is there in it.
#![tactic(auto)]

mod entries;
mod run_index;

pub use composition::{
    Choice, ChoiceSpot, Held, PhaseKind, PhaseSpot, Scene, Setting, Span, Trace, Value, ValueRange,
    ValueSpot,
};
pub use entries::Entries;
