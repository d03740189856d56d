//! What the scenes and texts of programs without faults meet: what the check of runs, flat forms and
//! typing ask of them.
#![tactic(auto)]

mod laws;

pub use laws::{
    expressions_are_typed, modifiers_are_sound, ranges_are_narrow, scenes_are_checkable,
    scenes_are_expanded, scenes_are_grounded, scenes_are_limited, scenes_are_typed,
    scenes_have_reads, scopes_are_resolved, vehicles_are_limited,
};
