//! What a program declares, type by type, with its trees.

ghost use Rattle.std.specs.Prelude.{◌≡◌, map, option_map};
ghost use Rattle.program_calls.specs.type_heads.Told.{told};
ghost use Rattle.program_calls.specs.SeenLabels.{seen_labels};
ghost use Rattle.program_fields.specs.Tables.{lists_in};
ghost use Rattle.program_texts.specs.OwnLabels.{labels_from};
ghost use Rattle.program_texts.specs.SeenFields.{types_of_parts};

use program_calls::{LabelTable, Types};
use program_fields::ProgramFields;
use program_members::Body;

/// The types of a program with their texts: the fields and the body of each, and the labels of each `do` that stands
/// in the text of its own type.
#[derive(Drop)]
pub struct ProgramTexts<'a> {
    pub(crate) types: &'a Types,
    pub(crate) library: Option<u32>,
    pub(crate) bodies: &'a [Body<'a>],
    pub(crate) fields: ProgramFields<'a>,
    pub(crate) labels: Vec<Option<LabelTable>>,
    ghost told_is: { types.now ≡ told (types_of_parts bodies.now library fields types.now.table) },
    ghost labels_are: { map (option_map seen_labels) labels.items ≡ labels_from types.now.table 0 (lists_in fields) },
}
