//! From the tokens of a source file to the tree that they spell, or to the first token with which no
//! tree goes on.
#![tactic(auto)]

mod declarations;
mod invocations;
mod members;
mod modifiers;
mod parser;
mod phases;
mod rules;

pub use parser::{ParseStop, parse};
