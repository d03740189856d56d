//! Readers of expressions and arguments.
#![tactic(auto)]

pub mod arguments;
mod expressions;
mod levels;
mod operands;

pub use expressions::{expr, suffixes};
