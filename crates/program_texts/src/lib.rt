//! What a program declares, type by type, with its trees: fields, the `do`, what fields hold, and under which conditions
//! members are there.
#![tactic(auto)]

mod asked;
mod conditions;
mod field_parts;
mod labels;
mod queries;
mod texts;

pub use field_parts::{list_items, list_length, range_of};
pub use labels::TypeLabels;
pub use program_calls::{Guard, Occurrence, TypeId, ValueRange, first_place, is_path, scope_at};
pub use program_fields::{FieldsOf, ListedMember, TypeDo, TypeField};
pub use scene_texts::{add, path_tokens, then_index, then_name, times, tokens, value_tokens};
pub use texts::ProgramTexts;
