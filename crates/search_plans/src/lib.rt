//! In which order the slots of a box are decided, and at which values: the plan of a search.
#![tactic(auto)]

mod beside;
mod choice;
mod cutting;
mod draw;
mod known;
mod near;
mod stepping;
mod wish;

pub use choice::next_entry;
pub use cutting::wished;
pub use wish::{Entry, Mean, Share, Wish};

// Crates below, for the crates above.
pub use box_eval::{Cut, Ends};
