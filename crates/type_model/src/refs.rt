//! Where the members of types are written.

ghost use Rattle.std.specs.Prelude.{◌≡◌, ◌++◌, [], drop, map, slice_index_or, take, IfOk, OnOk};
ghost use Rattle.string_texts.specs.type_heads.Shown.{shown_member};
ghost use Rattle.string_texts.specs.type_heads.Told.{last_number, member_told};
ghost use Rattle.type_tables.specs.type_members.Listed.{lists_of, seen_listed, seen_row};
ghost use Rattle.type_tables.specs.type_members.Shared.{fronts_in, part_at};
ghost use Rattle.type_model.specs.RowRefs.{ref_of, refs_in_parts, told_at, told_inside};

use std::alloc::{AllocError, Global};
use std::marker::Model;
use string_texts::{DeclId, MemberRef, Row, TypeId};
use type_tables::{ListedMember, MemberLists, MemberRow, Part, Span};

/// The innermost of the conditional subtypes that a member is under.
fn innermost(under: &[TypeId]) -> Option<TypeId>
    ensures { result ≡ last_number under.now }
{
    under.last().copied()
}

/// Where a member of a row is written, and how many conditional subtypes it is under.
#[derive(Clone, Copy)]
pub struct RowRef {
    pub at: MemberRef,
    pub depth: usize,
}

/// Where a member is written.
fn member_ref(member: &ListedMember<'_>) -> MemberRef
    ensures { result ≡ (ref_of (seen_listed member.now)).at }
{
    MemberRef {
        decl: DeclId {
            file: member.written.file,
            index: member.written.declaration,
        },
        index: member.written.index,
        under: innermost(member.under.as_slice()),
    }
}

/// Where members are written.
fn refs(alloc: Global, members: &[ListedMember<'_>]) -> Result<Row<RowRef>, AllocError>
    ensures { IfOk result (λ refs. refs ≡ map ref_of (map seen_listed members.now)) }
{
    let mut refs = Vec::new(alloc);
    for member in members {
        let at = member_ref(member);
        refs.push(RowRef {
            at,
            depth: member.under.as_slice().len(),
        })?;
    }
    Ok(Row::of(refs))
}

/// Where the members of each row are written.
fn row_refs(alloc: Global, rows: &[MemberRow<'_>]) -> Result<Vec<Row<RowRef>>, AllocError>
    ensures { IfOk result (λ all. all.items ≡ map (map ref_of) (map seen_row rows.now)) }
{
    let mut all = Vec::new(alloc);
    for row in rows {
        all.push(refs(alloc, row.members.as_slice())?)?;
    }
    Ok(all)
}

/// The parts in front of each row.
fn row_fronts(alloc: Global, rows: &[MemberRow<'_>]) -> Result<Vec<Row<Part>>, AllocError>
    ensures { IfOk result (λ all. all.items ≡ fronts_in rows.now) }
{
    let mut all = Vec::new(alloc);
    for row in rows {
        let front = Vec::from_slice(alloc, row.front.as_slice())?;
        all.push(Row::of(front))?;
    }
    Ok(all)
}

/// Where the members of each type are written. Contracts see that as a list for each type. Types share rows, as they share
/// rows of members: a row comes after the parts of other rows that stand in front of it.
#[derive(Drop)]
pub struct MemberRefs {
    rows: Vec<Row<RowRef>>,
    fronts: Vec<Row<Part>>,
    spans: Vec<Span>,
}

impl Model for MemberRefs {
    ghost use Rattle.std.specs.Prelude.{List, map};
    ghost use Rattle.string_texts.specs.type_heads.Told.{MemberAt};
    ghost use Rattle.type_model.specs.RowRefs.{told_at};

    ghost Value = { List (List MemberAt) };

    ghost view = { λ s. map (told_at s.fronts.items s.rows.items) s.spans.items };
}

/// The first of some members, or all of them if there are fewer.
fn first_of(members: &[RowRef], len: usize) -> &[RowRef]
    ensures { result.now ≡ take len members.now }
{
    if len < members.len() {
        &members[..len]
    } else {
        members
    }
}

/// Those of some members that stand at a place or after it.
fn after(members: &[RowRef], from: usize) -> &[RowRef]
    ensures { result.now ≡ drop from members.now }
{
    if from < members.len() {
        &members[from..]
    } else {
        &members[..0]
    }
}

/// What stands in a row from one place to another, as far as it is there.
fn between(members: &[RowRef], from: usize, to: usize) -> &[RowRef]
    ensures { result.now ≡ drop from (take to members.now) }
{
    after(first_of(members, to), from)
}

/// What stands in a part.
fn part_refs<'r>(rows: &'r [Row<RowRef>], part: &Part) -> &'r [RowRef]
    ensures { result.now ≡ part_at rows.now part.now }
{
    match rows.get(part.row) {
        Some(row) => between(row.as_slice(), part.from, part.to),
        None => &[],
    }
}

/// What stands in a row itself, after the parts in front of it.
fn own_refs<'r>(rows: &'r [Row<RowRef>], span: &Span) -> &'r [RowRef]
    ensures { result.now ≡ take span.now.len (slice_index_or rows.now span.now.row []) }
{
    match rows.get(span.row) {
        Some(row) => between(row.as_slice(), 0, span.len),
        None => &[],
    }
}

/// Where a member is written. `inside` is how many of the outermost conditions are met already.
fn ref_inside(kept: &RowRef, inside: usize) -> MemberRef
    ensures { shown_member result ≡ told_inside inside kept.now }
{
    let under = if inside < kept.depth {
        kept.at.under
    } else {
        None
    };
    MemberRef {
        decl: kept.at.decl,
        index: kept.at.index,
        under,
    }
}

/// Appends where members are written. `inside` is how many of the outermost conditions are met already.
fn push_inside(
    refs: &mut Vec<MemberRef>,
    members: &[RowRef],
    inside: usize,
) -> Result<(), AllocError>
    ensures { OnOk result (map shown_member refs.new.items ≡ map shown_member refs.old.items ++ map (told_inside inside) members.now) }
{
    for member in members {
        refs.push(ref_inside(member, inside))?;
    }
    Ok(())
}

/// What is told of the members in parts, one part after the other.
fn parts_refs(
    alloc: Global,
    rows: &[Row<RowRef>],
    parts: &[Part],
) -> Result<Vec<MemberRef>, AllocError>
    ensures { IfOk result (λ refs. map shown_member refs.items ≡ refs_in_parts rows.now parts.now) }
{
    let mut refs = Vec::new(alloc);
    for part in parts {
        push_inside(&mut refs, part_refs(rows, part), part.inside)?;
    }
    Ok(refs)
}

/// The parts in front of the row of that number.
fn front_of(fronts: &[Row<Part>], row: usize) -> &[Part]
    ensures { result.now ≡ slice_index_or fronts.now row [] }
{
    match fronts.get(row) {
        Some(front) => front.as_slice(),
        None => &[],
    }
}

/// What is told of the members at a place.
fn refs_at(
    alloc: Global,
    fronts: &[Row<Part>],
    rows: &[Row<RowRef>],
    span: &Span,
) -> Result<Row<MemberRef>, AllocError>
    ensures { IfOk result (λ refs. map shown_member refs ≡ told_at fronts.now rows.now span.now) }
{
    let mut refs = parts_refs(alloc, rows, front_of(fronts, span.row))?;
    push_inside(&mut refs, own_refs(rows, span), 0)?;
    Ok(Row::of(refs))
}

impl MemberRefs {
    /// Where the members of each type are written, given these members.
    pub fn of(alloc: Global, lists: &MemberLists<'_>) -> Result<MemberRefs, AllocError>
        ensures { IfOk result (λ all. all ≡ map (map member_told) (lists_of lists.now)) }
    {
        let rows = row_refs(alloc, lists.rows())?;
        let fronts = row_fronts(alloc, lists.rows())?;
        let spans = Vec::from_slice(alloc, lists.spans())?;
        Ok(MemberRefs {
            rows,
            fronts,
            spans,
        })
    }

    /// Where the members of a type are written, in order.
    pub fn members(&self, alloc: Global, of: TypeId) -> Result<Row<MemberRef>, AllocError>
        ensures { IfOk result (λ refs. map shown_member refs ≡ slice_index_or self.now of []) }
    {
        match self.spans.get(of.0 as usize) {
            Some(span) => refs_at(alloc, self.fronts.as_slice(), self.rows.as_slice(), span),
            None => Ok(Row::new(alloc)),
        }
    }
}
