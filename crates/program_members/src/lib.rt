//! The bodies and the members of the types of a program, with their trees.
#![tactic(auto)]

mod library;
mod members;

pub use members::ProgramMembers;
pub use type_heads::Body;
