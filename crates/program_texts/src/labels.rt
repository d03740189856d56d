//! The labels of the `do` of each type.

ghost use Rattle.std.specs.Prelude.{◌≡◌, ◌+◌, Some, map, option_map, IfOk};
ghost use Rattle.program_calls.specs.SeenLabels.{seen_labels};
ghost use Rattle.program_texts.specs.OwnLabels.{labels_from, own_labels as labels_own, seen_type_labels};
ghost use Rattle.program_fields.specs.SeenFields.{seen_do};
ghost use Rattle.program_fields.specs.Tables.{lists_in};

use program_calls::{LabelTable, TypeId, Types, do_labels};
use program_fields::{ProgramFields, TypeDo};
use std::alloc::{AllocError, Global};

/// The labels of the `do` of a type: those that the texts of types have, or those that were made of a `do` which the
/// type inherits.
#[derive(Drop)]
pub enum TypeLabels<'t> {
    Own(&'t LabelTable),
    Inherited(LabelTable),
}

impl<'t> TypeLabels<'t> {
    /// The labels.
    pub fn table(&self) -> &LabelTable
        ensures { seen_labels result.now ≡ seen_type_labels self.now }
    {
        match self {
            TypeLabels::Own(table) => table,
            TypeLabels::Inherited(table) => table,
        }
    }
}

/// The labels of a `do` of a type, if it stands in the type's own text.
fn labels_if_own(
    alloc: Global,
    types: &Types,
    of: u32,
    found: &TypeDo<'_>,
) -> Result<Option<LabelTable>, AllocError>
    ensures { IfOk result (λ table. option_map seen_labels table ≡ labels_own types.now.table of (Some (seen_do found.now))) }
{
    if found.holder == of {
        let table = do_labels(alloc, types, TypeId(found.holder), found.phase)?;
        Ok(Some(table))
    } else {
        Ok(None)
    }
}

/// The labels of a `do` of a type, if there is one and it stands in the type's own text.
fn labels_of(
    alloc: Global,
    types: &Types,
    of: u32,
    found: Option<TypeDo<'_>>,
) -> Result<Option<LabelTable>, AllocError>
    ensures { IfOk result (λ table. option_map seen_labels table ≡ labels_own types.now.table of (option_map seen_do found.entry)) }
{
    match found {
        Some(found) => labels_if_own(alloc, types, of, &found),
        None => Ok(None),
    }
}

/// The number of the next type. One that a `u32` doesn't hold counts as out of memory.
fn next_type(number: u32) -> Result<u32, AllocError>
    ensures { IfOk result (λ n. n ≡ number + 1) }
{
    number.checked_add(1).ok_or(AllocError)
}

/// The labels of the `do` of each type that has one in its own text.
pub(crate) fn own_labels(
    alloc: Global,
    types: &Types,
    fields: &ProgramFields<'_>,
) -> Result<Vec<Option<LabelTable>>, AllocError>
    ensures { IfOk result (λ tables. map (option_map seen_labels) tables.items ≡ labels_from types.now.table 0 (lists_in fields.now)) }
{
    let mut tables = Vec::new(alloc);
    let mut number: u32 = 0;
    for span in fields.lists().spans() {
        let found = fields.do_at(*span);
        tables.push(labels_of(alloc, types, number, found)?)?;
        number = next_type(number)?;
    }
    Ok(tables)
}
