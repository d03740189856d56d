//! The fields of each row of members.

ghost use Rattle.std.specs.Prelude.{◌≡◌, ◌++◌, [], ◌∷◌, length, map, slice_index_or, IfOk, OnOk};
ghost use Rattle.type_members.specs.type_heads.Members.{table_fields};
ghost use Rattle.type_members.specs.Listed.{seen_listed, seen_row};
ghost use Rattle.type_tables.specs.Entries.{member_entries};
ghost use Rattle.type_tables.specs.FieldEnds.{all_ends};

use crate::FieldTable;
use crate::fields::push_member;
use std::alloc::{AllocError, Global};
use type_members::{FieldEntry, Heads, ListedMember, MemberRow};

/// The fields that a row of members declares, and how many of them the first members of the row declare: none of them, the
/// first, the first two, and so on.
#[derive(Drop)]
pub struct FieldRow {
    pub table: FieldTable,
    pub ends: Vec<usize>,
}

/// Fields that are put down, and how many there were after each member.
#[derive(Drop)]
struct EndedFields {
    entries: Vec<FieldEntry>,
    ends: Vec<usize>,
}

impl EndedFields {
    fn new(alloc: Global) -> Result<EndedFields, AllocError>
        ensures entries { IfOk result (λ f. f.entries.items ≡ []) }
        ensures ends { IfOk result (λ f. f.ends.items ≡ 0 ∷ []) }
    {
        Ok(EndedFields {
            entries: Vec::new(alloc),
            ends: vec![in alloc; 0]?,
        })
    }

    /// Puts the fields of a member at the end.
    fn push(
        &mut self,
        alloc: Global,
        heads: &Heads,
        member: &ListedMember<'_>,
    ) -> Result<(), AllocError>
        ensures entries { OnOk result (self.new.entries.items ≡ self.old.entries.items ++ member_entries heads.now (seen_listed member.now)) }
        ensures ends { OnOk result (self.new.ends.items ≡ self.old.ends.items ++ length self.new.entries.items ∷ []) }
    {
        push_member(alloc, &mut self.entries, heads, member)?;
        self.ends.push(self.entries.len())?;
        Ok(())
    }
}

/// The fields among members.
fn fields(
    alloc: Global,
    heads: &Heads,
    members: &[ListedMember<'_>],
) -> Result<EndedFields, AllocError>
    ensures entries { IfOk result (λ fields. fields.entries.items ≡ table_fields heads.now (map seen_listed members.now)) }
    ensures ends { IfOk result (λ fields. fields.ends.items ≡ all_ends heads.now (map seen_listed members.now)) }
{
    let mut fields = EndedFields::new(alloc)?;
    for member in members {
        fields.push(alloc, heads, member)?;
    }
    Ok(fields)
}

/// The fields among members, found by their names.
fn field_row(
    alloc: Global,
    heads: &Heads,
    members: &[ListedMember<'_>],
) -> Result<FieldRow, AllocError>
    ensures table { IfOk result (λ row. row.table ≡ table_fields heads.now (map seen_listed members.now)) }
    ensures ends { IfOk result (λ row. row.ends.items ≡ all_ends heads.now (map seen_listed members.now)) }
{
    let fields = fields(alloc, heads, members)?;
    let table = FieldTable::of(alloc, fields.entries)?;
    Ok(FieldRow {
        table,
        ends: fields.ends,
    })
}

impl FieldRow {
    /// How many fields the first members of the row declare.
    pub fn count_among(&self, members: usize) -> usize
        ensures { result ≡ slice_index_or self.now.ends.items members (length self.now.table) }
    {
        match self.ends.get(members) {
            Some(count) => *count,
            None => self.table.len(),
        }
    }
}

/// The fields of each row of members.
pub fn field_rows(
    alloc: Global,
    heads: &Heads,
    rows: &[MemberRow<'_>],
) -> Result<Vec<FieldRow>, AllocError>
    ensures tables { IfOk result (λ all. map (λ r. r.table) all.items ≡ map (table_fields heads.now) (map seen_row rows.now)) }
    ensures ends { IfOk result (λ all. map (λ r. r.ends.items) all.items ≡ map (all_ends heads.now) (map seen_row rows.now)) }
{
    let mut all = Vec::new(alloc);
    for row in rows {
        all.push(field_row(alloc, heads, row.members.as_slice())?)?;
    }
    Ok(all)
}
