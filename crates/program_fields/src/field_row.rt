//! The fields of one row of members.

ghost use Rattle.type_tables.specs.Places.{Places};
ghost use Rattle.program_fields.specs.declared.spots.FieldSpot.{FieldSpot};

use crate::slices::{after, first_between, first_of};
use crate::spots::FieldSpot;
use type_tables::{FirstPlaces, found_between};

/// The fields that a row of members declares, the place of each name, how many fields the first members declare (none of them, the
/// first, the first two, and so on), and the place of each `do` among the members.
#[derive(Drop)]
pub(crate) struct FieldRow<'a> {
    pub(crate) spots: Vec<FieldSpot<'a>>,
    pub(crate) ends: Vec<usize>,
    pub(crate) places: FirstPlaces,
    pub(crate) dos: Vec<usize>,
    ghost placed: { Places places (λ (s : FieldSpot). s.name.now.text) spots.items },
}

impl<'a> FieldRow<'a> {
    ghost use Rattle.std.specs.Prelude.{◌≡◌, bytes_eq, drop, find, length, option_map, slice_get, take};
    ghost use Rattle.program_fields.specs.Parts.{is_between};
    ghost use Rattle.program_fields.specs.RowFacts.{count_among as count_of};

    /// How many fields the first members of the row declare.
    fn count_among(&self, members: usize) -> usize
        ensures { result ≡ count_of self.now members }
    {
        match self.ends.get(members) {
            Some(count) => *count,
            None => self.spots.len(),
        }
    }

    /// The fields that the members from one place to another declare.
    pub(crate) fn between(&self, from: usize, to: usize) -> &[FieldSpot<'a>]
        ensures { result.now ≡ drop (count_of self.now from) (take (count_of self.now to) self.now.spots.items) }
    {
        let first = self.count_among(from);
        let end = self.count_among(to);
        after(first_of(self.spots.as_slice(), end), first)
    }

    /// The field of that number that the members from one place to another declare.
    pub(crate) fn spot_at(&self, from: usize, to: usize, number: usize) -> Option<FieldSpot<'a>>
        ensures { result ≡ slice_get (drop (count_of self.now from) (take (count_of self.now to) self.now.spots.items)) number }
    {
        self.between(from, to).get(number).copied()
    }

    /// The first field of that name that the members from one place to another declare.
    pub(crate) fn spot_named(&self, from: usize, to: usize, name: &str) -> Option<FieldSpot<'a>>
        ensures { result ≡ find (λ (s : FieldSpot). bytes_eq s.name.now.text name.now) (drop (count_of self.now from) (take (count_of self.now to) self.now.spots.items)) }
    {
        let first = self.count_among(from);
        let end = self.count_among(to);
        found_between(&self.places, self.spots.as_slice(), first, end, name).copied()
    }

    /// The place of the first `do` from one place to another.
    pub(crate) fn do_between(&self, from: usize, to: usize) -> Option<usize>
        ensures { result ≡ find (is_between from to) self.now.dos.items }
    {
        first_between(self.dos.as_slice(), from, to)
    }
}
