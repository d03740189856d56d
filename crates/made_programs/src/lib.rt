//! The program that `osc make N` makes, its load, and the line that the command writes behind the run.
#![tactic(auto)]

mod lines;
mod program;
mod sure_shelf;
mod text;

pub use program::{MadeLoad, made_program};
pub use text::{made_line, made_text};

// Crates below, for the crates above.
pub use program_load::load;
