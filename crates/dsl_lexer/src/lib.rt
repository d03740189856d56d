//! From the bytes of a source file to its tokens, or to its first lexical fault.
#![tactic(auto)]

mod faults;
mod kinds;
mod layout;
mod lexer;
mod marks;
mod pieces;
mod scan;
mod shape;
mod spot;
mod stop;
mod widths;
mod words;

pub use lexer::{laws, lex};
pub use stop::LexStop;
