//! The slots of a scene: their names, and their numbers by path.
#![tactic(auto)]

mod counts;
mod names;
mod queries;
mod reads;
mod slots;
mod track;

pub use flat_shapes::{
    Choice, ChoiceSpot, Guard, Held, PhaseSpot, Run, Scene, Setting, Span, Trace, Value,
    ValueRange, ValueSpot, common_scale, number, rows, rule, terms,
};
pub use names::slot_names;
pub use slots::SceneSlots;
pub use track::Track;
