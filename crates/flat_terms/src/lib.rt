//! Terms and rules of given parts, rows of them joined by rounds of neighbours, and common scales.
#![tactic(auto)]

pub mod rows;
pub mod scales;
pub mod terms;

pub use field_flatten::{
    Choice, ChoiceSpot, Guard, Held, PhaseSpot, Run, Scene, Setting, Source, Span, Trace, Value,
    ValueRange, ValueSpot,
};
