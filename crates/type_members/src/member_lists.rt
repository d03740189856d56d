//! The members of each type.

ghost use Rattle.type_members.specs.Shared.{AreStarted};

use crate::listed::between;
use crate::placed::{PlacedRows, all_spans};
use crate::places::{Part, Span};
use crate::rows::MemberRow;
use crate::{ListedMember, Subtypes};
use std::alloc::{AllocError, Global};
use type_heads::{Body, Heads, TypeId};

/// The members of each type, that `lists_of` sees as a list of lists.
///
/// Each member stands once. A type that inherits without a condition has the members of its base, and then those that it has
/// beside them. Only these are written: they stand in a row, and the row comes after the parts of other rows in which those of
/// the base stand; or the type goes on with the row of its base. A conditional subtype has the members of its base in another
/// order, so nothing is written: those that come down through it stand in a part that comes last.
#[derive(Drop)]
pub struct MemberLists<'a> {
    rows: Vec<MemberRow<'a>>,
    spans: Vec<Span>,
    /// The members of a row that isn't there.
    none: Vec<ListedMember<'a>>,
    ghost started: { AreStarted rows.items },
}

impl<'a> MemberLists<'a> {
    ghost use Rattle.std.specs.Prelude.{◌≡◌, [], map, slice_index_or, take, IfOk};
    ghost use Rattle.type_heads.specs.Bodied.{seen_body};
    ghost use Rattle.type_heads.specs.Members.{members_of};
    ghost use Rattle.type_heads.specs.Table.{all_types};
    ghost use Rattle.type_members.specs.Listed.{AreSubtypes, lists_of, seen_listed, seen_row};
    ghost use Rattle.type_members.specs.Shared.{fronts_in, members_at, part_at};

    /// The members of each type, given its conditional subtypes.
    pub fn build(
        alloc: Global,
        heads: &Heads,
        bodies: &[Body<'a>],
        subtypes: &Subtypes,
    ) -> Result<MemberLists<'a>, AllocError>
        requires { AreSubtypes heads.now (map seen_body bodies.now) subtypes.now }
        ensures { IfOk result (λ m. lists_of m ≡ map (members_of heads.now (map seen_body bodies.now)) (all_types heads.now)) }
    {
        let mut placed = PlacedRows::of(alloc, heads, bodies, subtypes)?;
        let spans = all_spans(&mut placed, alloc, heads, bodies, subtypes)?;
        Ok(MemberLists {
            rows: placed.rows,
            spans,
            none: Vec::new(alloc),
        })
    }

    /// The rows of members, which types share.
    pub fn rows(&self) -> &[MemberRow<'a>]
        ensures { result.now ≡ self.now.rows.items }
    {
        self.rows.as_slice()
    }

    /// Where the members of each type stand.
    pub fn spans(&self) -> &[Span]
        ensures { result.now ≡ self.now.spans.items }
    {
        self.spans.as_slice()
    }

    /// Where the members of a type stand. A type that isn't there has none.
    pub fn span(&self, of: TypeId) -> Span
        ensures { members_at (fronts_in self.now.rows.items) (map seen_row self.now.rows.items) result ≡ slice_index_or (lists_of self.now) of [] }
    {
        match self.spans.get(of.0 as usize) {
            Some(span) => *span,
            None => Span {
                row: self.rows.len(),
                len: 0,
            },
        }
    }

    /// The parts in front of the row of that number.
    pub fn front(&self, row: usize) -> &[Part]
        ensures { result.now ≡ slice_index_or (fronts_in self.now.rows.items) row [] }
    {
        match self.rows.get(row) {
            Some(row) => row.front.as_slice(),
            None => &[],
        }
    }

    /// The members of the row of that number, without the parts in front of it.
    fn row(&self, number: usize) -> &[ListedMember<'a>]
        ensures { map seen_listed result.now ≡ slice_index_or (map seen_row self.now.rows.items) number [] }
    {
        match self.rows.get(number) {
            Some(row) => row.members.as_slice(),
            None => between(self.none.as_slice(), 0, 0),
        }
    }

    /// The members that stand in a part. Seen from inside of `inside` conditional subtypes, they are under all but so many.
    pub fn part(&self, part: &Part) -> &[ListedMember<'a>]
        ensures { map seen_listed result.now ≡ part_at (map seen_row self.now.rows.items) part.now }
    {
        between(self.row(part.row), part.from, part.to)
    }

    /// The members that stand in the row itself, after the parts in front of it.
    pub fn own(&self, span: &Span) -> &[ListedMember<'a>]
        ensures { map seen_listed result.now ≡ take span.now.len (slice_index_or (map seen_row self.now.rows.items) span.now.row []) }
    {
        between(self.row(span.row), 0, span.len)
    }
}
