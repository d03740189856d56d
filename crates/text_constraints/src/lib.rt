//! The constraints that the texts of an object give.
#![tactic(auto)]

mod conditions;
mod copies;
mod elements;
mod initials;
mod members;
mod rules;
mod targets;

pub use conditions::field_checked;
pub use members::{Standing, push_own};
pub use program_texts::{FieldsOf, Occurrence, ProgramTexts, TypeField};
pub use rules::{Owner, constraint, push_rule, typed_home};
pub use scene_places::{Places, moved_part};
pub use targets::{TextSite, read_at, read_of};
