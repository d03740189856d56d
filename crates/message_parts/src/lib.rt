//! The parts of messages for people: what a call read and wrote, a line of a source with a mark, and the message for words
//! that are refused.
//!
//! No contract speaks of the text of a message: what is proved is that it is made safely, and that nothing else depends
//! on it.
#![tactic(auto)]

mod closed_rules;
mod excerpt;
mod kept_files;
mod message;
mod noted_shelf;
mod noted_sink;
mod told;
mod words;

pub use closed_rules::ClosedRules;
pub use excerpt::line_start;
pub use kept_files::{bytes_of, load_kept, program_of, source_in, source_of};
pub use message::{gutter_of, put_explain, put_help, put_site};
pub use noted_shelf::NotedShelf;
pub use noted_sink::NotedSink;
pub use told::{Spot, Told, told_by};
pub use words::words_message;
