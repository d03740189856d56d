//! The messages for people that `osc` writes to standard error when it refuses.
//!
//! A message explains the line that was written to standard output. No contract speaks of its text: what is proved is
//! that it is made safely.
#![tactic(auto)]

mod candidates;
mod declared;
mod expected;
mod fault;
mod keywords;
mod refusal;
mod unknown;

pub use fault_texts::Status;
pub use message_parts::{NotedShelf, NotedSink};
pub use osc_base::Row;
pub use outside_io::{FileShelf, MemoryShelf, MemorySink, OutSink};
pub use refusal::{refusal_message, status_message};
