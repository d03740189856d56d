//! What is worked out of the members of types: fields, conditions, the numbers of enums, and the texts of strings.
#![tactic(auto)]

mod conditions;
mod field_lists;
mod field_rows;
mod field_table;
mod field_types;
mod fields;
mod first_places;
mod numbers;
mod text_table;
mod unit_table;

pub use conditions::all_conditions;
pub use field_lists::FieldLists;
pub use field_table::FieldTable;
pub use first_places::{FirstPlaces, HasName, found_between};
pub use numbers::all_numbers;
pub use text_table::TextTable;
pub use unit_table::UnitTable;

// Items of the crates below, for the crates above.
pub use type_members::{ListedMember, MemberLists, MemberRow, Part, Span, Subtypes};
