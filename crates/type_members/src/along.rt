//! The members of one type, listed along the types that it inherits from.

ghost use Rattle.std.specs.Prelude.{◌≡◌, ◌++◌, ◌<◌, ◌⊎◌, ◌∷◌, [], Some, length, map, IfOk, OnOk};
ghost use Rattle.type_heads.specs.Bodied.{seen_body};
ghost use Rattle.type_heads.specs.Members.{members_of};
ghost use Rattle.type_heads.specs.Table.{bases};
ghost use Rattle.type_members.specs.Ancestry.{HasEnd};
ghost use Rattle.type_members.specs.Listed.{AreSubtypes, seen_listed};
ghost use Rattle.type_members.specs.Listing.{listed_along};
ghost use Rattle.type_members.specs.RowEnds.{own_part};

use crate::listing::Descent;
use crate::{ListedMember, Subtypes};
use std::alloc::{AllocError, Global};
use type_heads::{Body, Heads, TypeId, line};

/// A type and then those that it inherits from.
fn whole_line(alloc: Global, heads: &Heads, of: TypeId) -> Result<Vec<TypeId>, AllocError>
    ensures { IfOk result (λ whole. whole.items ≡ of ∷ bases heads.now of) }
{
    let mut whole = vec![in alloc; of]?;
    let bases = line(alloc, heads, heads.base(of))?;
    whole.extend_from_slice(bases.as_slice())?;
    Ok(whole)
}

/// Lists the members that come down from a type and from those that it inherits from, farthest first.
fn list_along<'a>(
    alloc: Global,
    bodies: &[Body<'a>],
    subtypes: &Subtypes,
    steps: u32,
    line: &[TypeId],
    way: &[TypeId],
) -> Result<Vec<ListedMember<'a>>, AllocError>
    ensures { IfOk result (λ members. map seen_listed members.items ≡ listed_along steps (map seen_body bodies.now) subtypes.now line.now [] way.now) }
{
    let mut members = Vec::new(alloc);
    let mut left = way.len();
    while left > 0 {
        left -= 1;
        let skipped = &way[..left];
        let descent = Descent {
            bodies,
            subtypes,
            line,
            skipped,
        };
        descent.list(alloc, &mut members, steps, way[left])?;
    }
    Ok(members)
}

/// The members of a type.
pub fn members<'a>(
    alloc: Global,
    heads: &Heads,
    bodies: &[Body<'a>],
    subtypes: &Subtypes,
    of: TypeId,
) -> Result<Vec<ListedMember<'a>>, AllocError>
    requires { AreSubtypes heads.now (map seen_body bodies.now) subtypes.now }
    ensures { IfOk result (λ members. map seen_listed members.items ≡ members_of heads.now (map seen_body bodies.now) of) }
{
    let whole = whole_line(alloc, heads, of)?;
    let way = line(alloc, heads, Some(of))?;
    let steps = heads.count();
    let members = list_along(
        alloc,
        bodies,
        subtypes,
        steps,
        whole.as_slice(),
        way.as_slice(),
    )?;
    Ok(members)
}

/// What a descent needs to know of the types that one inherits from: nothing, if it isn't one of them.
fn line_beside(
    alloc: Global,
    heads: &Heads,
    of: TypeId,
    depth: usize,
) -> Result<Vec<TypeId>, AllocError>
    ensures { IfOk result (λ line. ((line.items ≡ []) × (depth < length heads.now)) ⊎ (line.items ≡ of ∷ bases heads.now of)) }
{
    if depth < heads.count() as usize {
        return Ok(Vec::new(alloc));
    }
    whole_line(alloc, heads, of)
}

/// Puts the members at the end that a type has beside those of its base. There are `depth` types from it on, each the base of
/// the one before; or no fewer than all types, if that isn't known.
pub fn push_part<'a>(
    alloc: Global,
    into: &mut Vec<ListedMember<'a>>,
    heads: &Heads,
    bodies: &[Body<'a>],
    subtypes: &Subtypes,
    of: TypeId,
    depth: usize,
) -> Result<(), AllocError>
    requires subtypes { AreSubtypes heads.now (map seen_body bodies.now) subtypes.now }
    requires ended { depth < length heads.now → HasEnd heads.now (Some of) depth }
    ensures { OnOk result (map seen_listed into.new.items ≡ map seen_listed into.old.items ++ own_part heads.now (map seen_body bodies.now) of) }
{
    let line = line_beside(alloc, heads, of, depth)?;
    let descent = Descent {
        bodies,
        subtypes,
        line: line.as_slice(),
        skipped: &[],
    };
    let steps = heads.count();
    descent.list(alloc, into, steps, of)?;
    Ok(())
}
