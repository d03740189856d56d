//! Input and output: shelves of files and sinks of bytes, in memory and real.
//!
//! A call of a shelf or sink that fails counts its fault. So a caller's contract can say that it reports a fault only if
//! one came.
#![tactic(auto)]

mod file_shelf;
mod loops;
mod memory_shelf;
mod memory_sink;
mod out_sink;
mod shelf;
mod sink;

pub use file_shelf::FileShelf;
pub use loops::{ReadStop, SinkStop, read_all, write_all};
pub use memory_shelf::MemoryShelf;
pub use memory_sink::MemorySink;
pub use out_sink::OutSink;
pub use shelf::{NamedBytes, Shelf, ShelfFault};
pub use sink::{Sink, SinkFault};

// Crates below, for the crates above.
pub use osc_base;
