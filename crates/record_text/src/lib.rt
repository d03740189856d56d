//! The text of refutation records: its lines, how they are read from a shelf, and how a record is written.
#![tactic(auto)]

mod begins;
mod found;
mod header;
mod line;
mod next_line;
mod nodes;
mod number;
mod page;
mod pick_scan;
mod picks;
mod put;
mod reader;
mod rest;
mod source;
mod stop;
mod write;

pub use found::Wanted;
pub use header::{Header, read_header};
pub use line::{Form, ReadLine};
pub use nodes::Nodes;
pub use picks::{Picks, TextPick};
pub use reader::Reader;
pub use rest::{next_node, read_rest};
pub use source::LIMIT;
pub use stop::VerifyStop;
pub use write::write_record;

// Crates below, for the crates above.
pub use box_eval;
pub use outside_io;
pub use record_trees::Record;
