//! What the load of a program gives meets what the laws on scenes ask.
#![tactic(auto)]

mod laws;

pub use laws::{
    loads_are_loaded_programs, names_are_no_words, numbers_are_short, strings_are_few,
    texts_are_few, trees_are_formed, trees_are_short, trees_pass_tests,
};
pub use program_load::LoadStop;
