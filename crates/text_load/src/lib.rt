//! The text of one file of a shelf: a run or a record that the words of a call name.
#![tactic(auto)]

mod loading;

pub use loading::{TextStop, load_text};
