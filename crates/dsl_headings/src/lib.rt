//! Readers of imports, units, physical types, enums, and the headings of types with members.
#![tactic(auto)]

mod enums;
mod headings;
pub mod imports;
mod units;

pub use enums::{enum_declaration, enum_items};
pub use headings::{
    begins_owned, begins_plain, begins_type_or_unit, heir, owned_word, plain_word, qualified_name,
};
pub use units::{bracket_and_line_end, type_declaration, unit_declaration};
