//! The fields and the `do` of a part of a row.

ghost use Rattle.std.specs.Prelude.{◌≡◌, find, length, option_and_then, option_map, slice_get};
ghost use Rattle.type_heads.specs.Members.{fields_among};
ghost use Rattle.type_members.specs.Listed.{seen_listed};
ghost use Rattle.type_members.specs.Shared.{members_in_part};
ghost use Rattle.program_fields.specs.Parts.{dos_from, field_at, has_text, is_between, the_do_in};
ghost use Rattle.program_fields.specs.SeenFields.{first_do_in, has_name, seen_do, seen_field};
ghost use Rattle.program_fields.specs.SeenSpots.{seen_spot};
ghost use Rattle.program_fields.specs.Tables.{own_part, part_spots, row_inside, row_of, rows_in};

use crate::fields::{TypeDo, TypeField};
use crate::gathered::{do_of, field_of};
use crate::spots::FieldSpot;
use crate::tables::ProgramFields;
use type_members::{ListedMember, Part, Span};

/// The first members of a row that stand at a place, as a part of the row.
pub(crate) fn first_part(span: &Span) -> Part
    ensures { result ≡ own_part span.now }
{
    Part {
        row: span.row,
        from: 0,
        to: span.len,
        inside: 0,
    }
}

impl<'a> ProgramFields<'a> {
    /// A member of the row of a part.
    fn member(&self, part: &Part, number: usize) -> Option<&'a ListedMember<'a>>
        ensures { option_map (λ m. seen_listed m.now) result ≡ slice_get (row_of self.now part.now) number }
    {
        match self.lists.rows().get(part.row) {
            Some(row) => row.members.get(number),
            None => None,
        }
    }

    /// A field of the row of a part, seen as it is in the part.
    fn field(&self, part: &Part, spot: FieldSpot<'a>) -> Option<TypeField<'a>>
        ensures { option_map seen_field result ≡ field_at (row_inside self.now part.now) (seen_spot spot.entry) }
    {
        match self.member(part, spot.member) {
            Some(listed) => field_of(listed, spot.name, part.inside),
            None => None,
        }
    }

    /// How many fields the members of a part declare.
    pub(crate) fn part_len(&self, part: &Part) -> usize
        ensures { result ≡ length (fields_among (members_in_part (rows_in self.now) part.now)) }
    {
        match self.row(part.row) {
            Some(row) => row.between(part.from, part.to).len(),
            None => 0,
        }
    }

    /// The field of that number of a part, counted from 0.
    pub(crate) fn part_field(&self, part: &Part, number: usize) -> Option<TypeField<'a>>
        ensures { option_map seen_field result ≡ slice_get (fields_among (members_in_part (rows_in self.now) part.now)) number }
    {
        match self.spot_at(part, number) {
            Some(spot) => self.field(part, spot),
            None => None,
        }
    }

    fn spot_at(&self, part: &Part, number: usize) -> Option<FieldSpot<'a>>
        ensures { option_map seen_spot result ≡ slice_get (part_spots self.now part.now) number }
    {
        match self.row(part.row) {
            Some(row) => row.spot_at(part.from, part.to, number),
            None => None,
        }
    }

    /// The first field of that name of a part.
    pub(crate) fn part_named(&self, part: &Part, name: &str) -> Option<TypeField<'a>>
        ensures { option_map seen_field result ≡ find (has_name name.now) (fields_among (members_in_part (rows_in self.now) part.now)) }
    {
        match self.spot_named(part, name) {
            Some(spot) => self.field(part, spot),
            None => None,
        }
    }

    fn spot_named(&self, part: &Part, name: &str) -> Option<FieldSpot<'a>>
        ensures { option_map seen_spot result ≡ find (has_text name.now) (part_spots self.now part.now) }
    {
        match self.row(part.row) {
            Some(row) => row.spot_named(part.from, part.to, name),
            None => None,
        }
    }

    /// The first `do` of a part.
    pub(crate) fn part_do(&self, part: &Part) -> Option<TypeDo<'a>>
        ensures { option_map seen_do result ≡ first_do_in (members_in_part (rows_in self.now) part.now) }
    {
        match self.do_place(part) {
            Some(place) => self.do_of(part, place),
            None => None,
        }
    }

    /// The place of the first `do` of a part, in its row.
    fn do_place(&self, part: &Part) -> Option<usize>
        ensures { result ≡ find (is_between part.now.from part.now.to) (dos_from 0 (row_of self.now part.now)) }
    {
        match self.row(part.row) {
            Some(row) => row.do_between(part.from, part.to),
            None => None,
        }
    }

    /// The `do` that a member of the row of a part is, seen as it is in the part.
    fn do_of(&self, part: &Part, place: usize) -> Option<TypeDo<'a>>
        ensures { option_map seen_do result ≡ option_and_then the_do_in (slice_get (row_inside self.now part.now) place) }
    {
        match self.member(part, place) {
            Some(listed) => do_of(listed, part.inside),
            None => None,
        }
    }
}
