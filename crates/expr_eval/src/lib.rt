//! Whole expressions: their first fault, their typed form and their value.
#![tactic(auto)]

mod checks;
mod divisor;
mod items;
mod laws;
mod leaves;
mod pairs;
mod paths;
mod quotients;
mod typing;

pub use checks::checked;
pub use expr_nodes::Checked;
pub use expr_operators::least;
pub use expr_operators::steps::related;
pub use expr_typing::literals;
pub use expr_typing::others::{enum_name, it};
pub use expr_typing::steps::pointed;
pub use expr_value::{Reading, value};
pub use laws::{exponents_are_bounded, typed_or_refused};
pub use paths::{path_checked, path_place};
pub use typing::{TypeStop, type_of};
