//! The text of a flat form, as the command `flat` writes it.
#![tactic(auto)]

mod rules;
mod slots;
mod text;

pub use text::listing;
