//! The load of a program: its main file and what its files import, from a shelf.
#![tactic(auto)]

mod laws;
mod loader;
mod read;
mod source;
mod stop;
mod turn;

pub use laws::{one_load, some_load};
pub use loader::load;
pub use stop::{LoadStop, Refusal};

// Crates below, for the crates above.
pub use dsl_lexer;
pub use dsl_parser;
