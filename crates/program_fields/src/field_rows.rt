//! The fields of each row of members.

ghost use Rattle.std.specs.Prelude.{◌≡◌, map, IfOk};
ghost use Rattle.type_members.specs.Listed.{seen_listed, seen_row};
ghost use Rattle.program_fields.specs.Parts.{facts_of};
ghost use Rattle.program_fields.specs.RowFacts.{row_facts};

use crate::field_row::FieldRow;
use crate::gathered::do_places;
use crate::spots::ended_spots;
use std::alloc::{AllocError, Global};
use type_members::{ListedMember, MemberRow};
use type_tables::FirstPlaces;

/// The fields among members, found by their names.
fn field_row<'a>(alloc: Global, members: &[ListedMember<'a>]) -> Result<FieldRow<'a>, AllocError>
    ensures { IfOk result (λ row. row_facts row ≡ facts_of (map seen_listed members.now)) }
{
    let fields = ended_spots(alloc, members)?;
    let places = FirstPlaces::of(alloc, fields.spots.as_slice())?;
    let dos = do_places(alloc, members)?;
    Ok(FieldRow {
        spots: fields.spots,
        ends: fields.ends,
        places,
        dos,
    })
}

/// The fields of each row of members.
pub(crate) fn field_rows<'a>(
    alloc: Global,
    rows: &[MemberRow<'a>],
) -> Result<Vec<FieldRow<'a>>, AllocError>
    ensures { IfOk result (λ all. map row_facts all.items ≡ map facts_of (map seen_row rows.now)) }
{
    let mut all = Vec::new(alloc);
    for row in rows {
        all.push(field_row(alloc, row.members.as_slice())?)?;
    }
    Ok(all)
}
