#![tactic(auto)]
//! User modifiers: what a program means in which parts stand in the place of applications, and the
//! program with the parts put in.

mod laws;

pub use laws::{
    bodies_agree, expansions_agree, forms_in_are_put, nothing_to_unfold, parts_agree,
    typed_in_is_put, unfolded_files_mean, unfolding_keeps_instances, unfolding_keeps_scenarios,
    unfolding_keeps_scenes,
};
