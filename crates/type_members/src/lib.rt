//! The members of each type.
#![tactic(auto)]

mod along;
mod bare;
mod bodied;
mod cutting;
mod fronts;
mod heirs;
mod holes;
mod listed;
mod listing;
mod member_lists;
mod placed;
mod places;
mod rows;
mod subtypes;

pub use bodied::heir_condition;
pub use listed::ListedMember;
pub use member_lists::MemberLists;
pub use places::{Part, Span};
pub use rows::{Cut, MemberRow, RowEnd, Start};
pub use subtypes::Subtypes;

// Items of the crates below, for the crates above.
pub use type_heads::{
    Body, ConditionEntry, EnumEntry, FieldEntry, FieldType, Form, Heads, Row, Text, TypeId,
    UnitEntry, WrittenMember,
};
