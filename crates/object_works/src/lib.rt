//! The works in a work of an expansion: the objects and values of fields, and the phases of a `do`.
#![tactic(auto)]

mod bindings;
mod calls;
mod copies;
mod fields;
mod within;
mod works_in;

pub use bindings::{call_scope, object_at};
pub use copies::{copy_binding, copy_bindings, copy_guards, copy_range};
pub use expr_eval::checked;
pub use expr_nodes::TextTable;
pub use program_texts::{Guard, ProgramTexts, TypeId, ValueRange, then_name};
pub use scene_expansion::{
    Binding, Call, Content, Counts, Layout, ModifierForm, ModifierSpot, PhaseKind, Spot, Work,
    WorkLayout, add, argument_named, arguments_tokens, first_place, is_too_large, it,
    modifier_form, name_of, pointed, scene_of, then_do, then_member,
};
pub use works_in::{parts, root, root_parts};
