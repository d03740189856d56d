//! What the scenes of a program without faults of declarations have: what the laws of flat forms need.
#![tactic(auto)]

mod laws;

pub use laws::{
    conditions_are_grounded, conditions_are_small, scenes_are_few, scenes_are_laid_out,
    scenes_have_ranges, typed_are_sound,
};
