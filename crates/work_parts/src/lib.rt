//! What a work of an expansion holds by itself: its spot, the bindings that it makes, its modifiers, and how many objects, slots,
//! rules and copied tokens it has; and the texts of a program.
#![tactic(auto)]

mod all_texts;
mod arguments;
mod bindings;
mod ends;
mod kinds;
mod members;
mod modifiers;
mod modifiers_in;
mod objects;
mod phases;
mod ranges;
mod spots;
mod with_own;
mod works;

pub use all_texts::texts;
pub use bindings::push_bindings;
pub use kinds::composition_kind;
pub use modifiers_in::push_modifiers;
pub use object_works::{
    Binding, Layout, ModifierSpot, ProgramTexts, TextTable, Work, WorkLayout, is_too_large, parts,
    root, root_parts, scene_of,
};
pub use scene_places::Scene;
pub use spots::spot;
pub use works::counts;
