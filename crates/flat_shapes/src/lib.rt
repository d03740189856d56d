//! The terms and rules of typed expressions.
#![tactic(auto)]

mod reads;
mod shapes;
mod slots;

pub use flat_terms::scales::common_scale;
pub use flat_terms::{
    Choice, ChoiceSpot, Guard, Held, PhaseSpot, Run, Scene, Setting, Source, Span, Trace, Value,
    ValueRange, ValueSpot, rows, terms,
};
pub use shapes::{number, rule};
pub use slots::{Found, Slots};
