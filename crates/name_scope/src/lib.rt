//! The files of a program and the names that they declare.
#![tactic(auto)]

mod find;
mod headings;
mod ids;
mod known;
mod least;
mod library;
mod names;
mod program;
mod source;
mod table;

pub use ids::{DeclId, NameKind};
pub use least::with_fault;
pub use library::library_text;
pub use names::{FileName, Wanted};
pub use program::{AddStop, Program};
pub use source::Source;

// Crates below, for the crates above.
pub use dsl_tree;
