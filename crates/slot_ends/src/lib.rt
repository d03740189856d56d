//! The ends of the slots of a scene.
#![tactic(auto)]

mod ends;

pub use ends::{bounds, ends_of, number_ends};
pub use scene_slots::{Scene, ValueRange, ValueSpot, slot_names};
