//! Members in the list of a type.

ghost use Rattle.std.specs.Prelude.{◌≡◌, drop, map, take};
ghost use Rattle.type_members.specs.Listed.{seen_listed};

use type_heads::{Row, TypeId, WrittenMember};

/// A member of a type: where it is written, the type in whose declaration or extension that is, and the conditional
/// subtypes that it is under, outermost first.
#[derive(Drop)]
pub struct ListedMember<'a> {
    pub written: WrittenMember<'a>,
    pub holder: TypeId,
    pub under: Row<TypeId>,
}

impl<'a> ListedMember<'a> {
    ghost use Rattle.std.specs.Prelude.{◌≡◌, drop};

    /// The conditional subtypes that a member is under, without the outermost `inside`, whose conditions are met already.
    pub fn under_inside(&self, inside: usize) -> &[TypeId]
        ensures { result.now ≡ drop inside self.now.under }
    {
        let under = self.under.as_slice();
        if inside < under.len() {
            &under[inside..]
        } else {
            &[]
        }
    }
}

/// The first members of a row, as far as the row has them.
fn first_of<'l, 'a>(members: &'l [ListedMember<'a>], len: usize) -> &'l [ListedMember<'a>]
    ensures { map seen_listed result.now ≡ take len (map seen_listed members.now) }
{
    if len < members.len() {
        &members[..len]
    } else {
        members
    }
}

/// The members of a row from one place on.
fn rest_of<'l, 'a>(members: &'l [ListedMember<'a>], from: usize) -> &'l [ListedMember<'a>]
    ensures { map seen_listed result.now ≡ drop from (map seen_listed members.now) }
{
    if from < members.len() {
        &members[from..]
    } else {
        &members[..0]
    }
}

/// The members of a row from one place to another, as far as the row has them.
pub fn between<'l, 'a>(
    members: &'l [ListedMember<'a>],
    from: usize,
    to: usize,
) -> &'l [ListedMember<'a>]
    ensures { map seen_listed result.now ≡ drop from (take to (map seen_listed members.now)) }
{
    rest_of(first_of(members, to), from)
}
