//! A cursor over the tokens of a source file, and what the readers of all parts of the grammar share.
#![tactic(auto)]

mod names;
mod rows;
mod signs;
mod stop;
mod tokens;

pub use names::enum_member;
pub use rows::{Item, Repeated, block, items, row_from, row_of, with_rest};
pub use signs::{Sign, is_sign};
pub use stop::Stop;
pub use tokens::Cursor;
