//! What is said of a mistake beyond the code of its fault: its probable cause, and a way to mend it.
//!
//! Units and arguments are looked at with the names that the program declares; all other mistakes are cases of
//! `mistake_cases`. No contract speaks of these texts: what is proved is that they are made safely.
#![tactic(auto)]

mod arguments;
mod helps;
mod kinds;
mod program_names;

pub use arguments::{Argument, arguments_in};
pub use helps::mistake_help;
pub use program_names::{
    Declared, all_units, declared_names, first_of, nearest_name, scenarios, type_around,
    type_of_member,
};
