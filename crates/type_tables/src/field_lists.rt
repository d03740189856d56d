//! The fields of each type.

ghost use Rattle.std.specs.Prelude.{◌≡◌, [], map, option_copied, slice_index_or, take, IfOk};
ghost use Rattle.type_members.specs.type_heads.Members.{table_fields};
ghost use Rattle.type_members.specs.type_heads.Table.{field_in};
ghost use Rattle.type_members.specs.Listed.{lists_of};
ghost use Rattle.type_members.specs.Shared.{fronts_in, list_at, part_at};
ghost use Rattle.type_tables.specs.FieldEnds.{count_in, part_of_fields, span_of_fields};
ghost use Rattle.type_tables.specs.InParts.{first_found};

use crate::field_rows::{FieldRow, field_rows};
use std::alloc::{AllocError, Global};
use std::marker::Model;
use type_members::{FieldEntry, Heads, MemberLists, MemberRow, Part, Row, Span, TypeId};

/// How many fields the first members of a row declare.
fn first_count(rows: &[FieldRow], row: usize, members: usize) -> usize
    ensures { result ≡ count_in rows.now row members }
{
    match rows.get(row) {
        Some(row) => row.count_among(members),
        None => 0,
    }
}

/// Where fields stand, given the part in which the members that declare them stand.
fn field_part(rows: &[FieldRow], part: &Part) -> Part
    ensures { result ≡ part_of_fields rows.now part.now }
{
    Part {
        row: part.row,
        from: first_count(rows, part.row, part.from),
        to: first_count(rows, part.row, part.to),
        inside: part.inside,
    }
}

fn field_parts(alloc: Global, rows: &[FieldRow], parts: &[Part]) -> Result<Row<Part>, AllocError>
    ensures { IfOk result (λ all. all ≡ map (part_of_fields rows.now) parts.now) }
{
    let mut all = Vec::new(alloc);
    for part in parts {
        all.push(field_part(rows, part))?;
    }
    Ok(Row::of(all))
}

/// The parts of fields in front of each row.
fn field_fronts(
    alloc: Global,
    rows: &[FieldRow],
    of_members: &[MemberRow<'_>],
) -> Result<Vec<Row<Part>>, AllocError>
    ensures { IfOk result (λ all. all.items ≡ map (map (part_of_fields rows.now)) (fronts_in of_members.now)) }
{
    let mut all = Vec::new(alloc);
    for row in of_members {
        all.push(field_parts(alloc, rows, row.front.as_slice())?)?;
    }
    Ok(all)
}

/// Where fields stand, given where the members that declare them stand.
fn field_span(rows: &[FieldRow], span: &Span) -> Span
    ensures { result ≡ span_of_fields rows.now span.now }
{
    Span {
        row: span.row,
        len: first_count(rows, span.row, span.len),
    }
}

fn field_spans(alloc: Global, rows: &[FieldRow], spans: &[Span]) -> Result<Vec<Span>, AllocError>
    ensures { IfOk result (λ all. all.items ≡ map (span_of_fields rows.now) spans.now) }
{
    let mut all = Vec::new(alloc);
    for span in spans {
        all.push(field_span(rows, span))?;
    }
    Ok(all)
}

/// The field of that name in a part.
fn named_in_part<'r>(rows: &'r [FieldRow], part: &Part, name: &str) -> Option<&'r FieldEntry>
    ensures { option_copied result ≡ field_in (part_at (map (λ r. r.table) rows.now) part.now) name.now }
{
    let row = rows.get(part.row)?;
    row.table.named_between(part.from, part.to, name)
}

/// The first field of that name in parts.
fn named_in_parts<'r>(rows: &'r [FieldRow], parts: &[Part], name: &str) -> Option<&'r FieldEntry>
    ensures { option_copied result ≡ first_found (λ p. field_in (part_at (map (λ r. r.table) rows.now) p) name.now) parts.now }
{
    for part in parts {
        if let Some(field) = named_in_part(rows, part, name) {
            return Some(field);
        }
    }
    None
}

/// The field of that name that stands in the row itself, after the parts in front of it.
fn named_in_row<'r>(rows: &'r [FieldRow], span: &Span, name: &str) -> Option<&'r FieldEntry>
    ensures { option_copied result ≡ field_in (take span.now.len (slice_index_or (map (λ r. r.table) rows.now) span.now.row [])) name.now }
{
    let row = rows.get(span.row)?;
    row.table.named_between(0, span.len, name)
}

/// The parts in front of the row of that number.
fn front_of(fronts: &[Row<Part>], row: usize) -> &[Part]
    ensures { result.now ≡ slice_index_or fronts.now row [] }
{
    match fronts.get(row) {
        Some(front) => front.as_slice(),
        None => &[],
    }
}

/// The first field of that name at a place.
fn named_at<'r>(
    fronts: &[Row<Part>],
    rows: &'r [FieldRow],
    span: &Span,
    name: &str,
) -> Option<&'r FieldEntry>
    ensures { option_copied result ≡ field_in (list_at fronts.now (map (λ r. r.table) rows.now) span.now) name.now }
{
    match named_in_parts(rows, front_of(fronts, span.row), name) {
        Some(field) => Some(field),
        None => named_in_row(rows, span, name),
    }
}

/// The fields of each type. Contracts see them as a list for each type. Types share rows, as they share rows of members: a row
/// comes after the parts of other rows in which the fields of the members in front of it stand.
#[derive(Drop)]
pub struct FieldLists {
    rows: Vec<FieldRow>,
    fronts: Vec<Row<Part>>,
    spans: Vec<Span>,
}

impl Model for FieldLists {
    ghost use Rattle.std.specs.Prelude.{List, map};
    ghost use Rattle.type_members.specs.type_heads.Table.{TableField};
    ghost use Rattle.type_members.specs.Shared.{list_at};

    ghost Value = { List (List TableField) };

    ghost view = { λ s. map (list_at s.fronts.items (map (λ r. r.table) s.rows.items)) s.spans.items };
}

impl FieldLists {
    /// The fields of each type, given its members.
    pub fn of(
        alloc: Global,
        heads: &Heads,
        lists: &MemberLists<'_>,
    ) -> Result<FieldLists, AllocError>
        ensures { IfOk result (λ all. all ≡ map (table_fields heads.now) (lists_of lists.now)) }
    {
        let rows = field_rows(alloc, heads, lists.rows())?;
        let fronts = field_fronts(alloc, rows.as_slice(), lists.rows())?;
        let spans = field_spans(alloc, rows.as_slice(), lists.spans())?;
        Ok(FieldLists {
            rows,
            fronts,
            spans,
        })
    }

    /// The field of that name of a type.
    pub fn named(&self, of: TypeId, name: &str) -> Option<&FieldEntry>
        ensures { option_copied result ≡ field_in (slice_index_or self.now of []) name.now }
    {
        let span = self.spans.get(of.0 as usize)?;
        named_at(self.fronts.as_slice(), self.rows.as_slice(), span, name)
    }
}
