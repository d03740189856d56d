//! The flat form of a scene, and the run of a point.
#![tactic(auto)]

mod laws;

pub use composition::{
    Choice, ChoiceSpot, Compare, Guard, Held, PhaseSpot, Run, Scene, Setting, Source, Span, Trace,
    Value, ValueRange, ValueSpot,
};
pub use laws::{flat_forms_are_exact, flat_forms_are_flat, scenes_are_exact};
