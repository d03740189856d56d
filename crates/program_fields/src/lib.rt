//! The fields and the `do` of each type, found by name and by number.
#![tactic(auto)]

mod field_row;
mod field_rows;
mod fields;
mod gathered;
mod parts;
mod slices;
mod spots;
mod tables;
mod views;

pub use fields::{TypeDo, TypeField};
pub use tables::ProgramFields;
pub use type_members::{ListedMember, MemberLists, heir_condition};
pub use views::FieldsOf;
