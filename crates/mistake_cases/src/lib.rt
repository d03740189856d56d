//! What is said of a mistake by the text around it: its probable cause, and a way to mend it.
//!
//! The cases are rows of tables: a code, tests on the text at the place and around it, and a text. No contract speaks
//! of these texts: what is proved is that they are made safely.
#![tactic(auto)]

mod brackets;
mod cases;
mod foreign_names;
mod form;
mod grammar_cases;
mod labels;
mod lexical_cases;
mod meaning_cases;
mod nearest;
mod strings;
mod text_parts;
mod view;
mod word_cases;

pub use cases::case_help;
pub use form::Help;
pub use nearest::{Nearest, nearest_of};
pub use text_parts::{
    digits_of, first_part, first_word, indentation, is_name, is_number, last_part, last_word,
    unit_of,
};
pub use view::View;
