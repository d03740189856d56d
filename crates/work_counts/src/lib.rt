//! How many objects, slots, rules and copied tokens a work of an expansion has by itself.
#![tactic(auto)]

mod members;
mod tally;
mod texts;

pub use members::object_tally;
pub use program_texts::{FieldsOf, ProgramTexts, TypeField};
pub use tally::Tally;
pub use texts::{rule_tally, value_tally};
