//! Some of the fields of a row, and the first of some places.

ghost use Rattle.std.specs.Prelude.{◌≡◌, drop, find, take};
ghost use Rattle.program_fields.specs.Parts.{is_between as stands_between};

use crate::spots::FieldSpot;

/// The first of some fields, or all of them if there are fewer.
pub(crate) fn first_of<'l, 'a>(fields: &'l [FieldSpot<'a>], len: usize) -> &'l [FieldSpot<'a>]
    ensures { result.now ≡ take len fields.now }
{
    if len < fields.len() {
        &fields[..len]
    } else {
        fields
    }
}

/// Those of some fields that stand at a place or after it.
pub(crate) fn after<'l, 'a>(fields: &'l [FieldSpot<'a>], from: usize) -> &'l [FieldSpot<'a>]
    ensures { result.now ≡ drop from fields.now }
{
    if from < fields.len() {
        &fields[from..]
    } else {
        &fields[..0]
    }
}

/// Whether a place isn't before the first, and is before the second.
fn is_between(place: usize, from: usize, to: usize) -> bool
    ensures { result ≡ stands_between from to place }
{
    from <= place && place < to
}

/// The first of some places that isn't before the first given one, and is before the second.
pub(crate) fn first_between(places: &[usize], from: usize, to: usize) -> Option<usize>
    ensures { result ≡ find (stands_between from to) places.now }
{
    for place in places {
        if is_between(*place, from, to) {
            return Some(*place);
        }
    }
    None
}
