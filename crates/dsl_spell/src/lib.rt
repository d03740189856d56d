//! Writes a tree as the tokens that it is spelled by.
#![tactic(auto)]

mod rows;
mod spell_expr;
mod spell_file;
mod spell_modifiers;
mod spell_phase;
mod spell_tree;
mod writer;

pub use spell_tree::spell;
