//! Rows of members, each with the types whose members end in it.

ghost use Rattle.std.specs.Prelude.{◌≡◌, ◌++◌, ◌<◌, List, [], ◌∷◌, None, Some, false, length, map, IfOk, IfSome, OnOk};
ghost use Rattle.type_heads.specs.Bodied.{seen_body};
ghost use Rattle.type_heads.specs.Members.{is_conditional, members_of};
ghost use Rattle.type_heads.specs.Table.{base};
ghost use Rattle.type_heads.specs.Types.{Member};
ghost use Rattle.type_members.specs.Ancestry.{HasEnd};
ghost use Rattle.type_members.specs.Listed.{AreSubtypes, seen_row};
ghost use Rattle.type_members.specs.Origins.{IsWhole};
ghost use Rattle.type_members.specs.RowEnds.{AreEnds, is_heir as inherits, own_part};

use crate::along::{members, push_part};
use crate::bodied::heir_condition;
use crate::places::{Part, Span};
use crate::{ListedMember, Subtypes};
use std::alloc::{AllocError, Global};
use type_heads::{Body, Heads, TypeId};

/// A type whose members are what stands in front of a row, and then so many of the first of the row. There are `depth`
/// types from it on, each the base of the one before; or no fewer than all types, if that isn't known.
#[derive(Clone, Copy)]
pub struct RowEnd {
    pub of: TypeId,
    pub len: usize,
    pub depth: usize,
}

/// The range `from..to` of its row that is removed from the part of that number.
#[derive(Clone, Copy)]
pub struct Cut {
    pub part: usize,
    pub from: usize,
    pub to: usize,
}

/// Where a row starts: after what stands at an earlier place. If there is a cut, what is cut out of that comes last.
#[derive(Clone, Copy)]
pub struct Start {
    pub at: Span,
    pub cut: Option<Cut>,
}

/// Members in a row, what they come after, and the types whose members end in the row.
#[derive(Drop)]
pub struct MemberRow<'a> {
    pub start: Option<Start>,
    pub front: Vec<Part>,
    pub members: Vec<ListedMember<'a>>,
    pub ends: Vec<RowEnd>,
}

/// Whether a type inherits from another without a condition.
fn is_heir(heads: &Heads, bodies: &[Body<'_>], of: TypeId, heir: TypeId) -> bool
    ensures { result ≡ inherits heads.now (map seen_body bodies.now) of heir }
{
    match heads.base(heir) {
        Some(base) => base == of && heir_condition(bodies, heir).is_none(),
        None => false,
    }
}

/// The type that goes on with the row of another, if it is found among `heirs`.
fn heir_of(
    heads: &Heads,
    bodies: &[Body<'_>],
    heirs: &[Option<TypeId>],
    of: TypeId,
) -> Option<TypeId>
    ensures { IfSome result (λ heir. (base heads.now heir ≡ Some of) × (is_conditional (map seen_body bodies.now) heir ≡ false)) }
{
    match heirs.get(of.0 as usize) {
        Some(Some(heir)) if is_heir(heads, bodies, of, *heir) => Some(*heir),
        _ => None,
    }
}

/// A row of all members of a type, which starts at no other row.
pub fn row_of<'a>(
    alloc: Global,
    heads: &Heads,
    bodies: &[Body<'a>],
    subtypes: &Subtypes,
    of: TypeId,
) -> Result<MemberRow<'a>, AllocError>
    requires { AreSubtypes heads.now (map seen_body bodies.now) subtypes.now }
    ensures members { IfOk result (λ row. seen_row row ≡ members_of heads.now (map seen_body bodies.now) of) }
    ensures front { IfOk result (λ row. row.front.items ≡ []) }
    ensures start { IfOk result (λ row. row.start ≡ None) }
    ensures ends { IfOk result (λ row. row.ends.items ≡ record { of = of; len = length row.members.items; depth = length heads.now } ∷ []) }
{
    let members = members(alloc, heads, bodies, subtypes, of)?;
    let end = RowEnd {
        of,
        len: members.len(),
        depth: heads.count() as usize,
    };
    Ok(MemberRow {
        start: None,
        front: Vec::new(alloc),
        members,
        ends: vec![in alloc; end]?,
    })
}

/// A type goes on with the row of its base. There are `depth` types from it on.
pub fn go_on<'a>(
    alloc: Global,
    row: &mut MemberRow<'a>,
    heads: &Heads,
    bodies: &[Body<'a>],
    subtypes: &Subtypes,
    of: TypeId,
    depth: usize,
) -> Result<(), AllocError>
    requires subtypes { AreSubtypes heads.now (map seen_body bodies.now) subtypes.now }
    requires ended { depth < length heads.now → HasEnd heads.now (Some of) depth }
    ensures members { OnOk result (seen_row row.new ≡ seen_row row.old ++ own_part heads.now (map seen_body bodies.now) of) }
    ensures ends { OnOk result (row.new.ends.items ≡ row.old.ends.items ++ record { of = of; len = length row.new.members.items; depth = depth } ∷ []) }
    ensures front { OnOk result (row.new.front.items ≡ row.old.front.items) }
    ensures start { OnOk result (row.new.start ≡ row.old.start) }
{
    push_part(alloc, &mut row.members, heads, bodies, subtypes, of, depth)?;
    let len = row.members.len();
    row.ends.push(RowEnd { of, len, depth })?;
    Ok(())
}

/// A row goes on with the type among `heirs` that inherits from its last one, with the one that inherits from that, and so
/// on.
pub fn go_on_with_heirs<'a>(
    alloc: Global,
    row: &mut MemberRow<'a>,
    heads: &Heads,
    bodies: &[Body<'a>],
    subtypes: &Subtypes,
    heirs: &[Option<TypeId>],
    of: TypeId,
    depth: usize,
) -> Result<(), AllocError>
    requires subtypes { AreSubtypes heads.now (map seen_body bodies.now) subtypes.now }
    requires ended { depth < length heads.now → HasEnd heads.now (Some of) depth }
    ensures ends { OnOk result ((front : List Member) → IsWhole heads.now (map seen_body bodies.now) front row.old of → AreEnds heads.now (map seen_body bodies.now) front (seen_row row.new) row.new.ends.items) }
    ensures front { OnOk result (row.new.front.items ≡ row.old.front.items) }
    ensures start { OnOk result (row.new.start ≡ row.old.start) }
{
    let most = heads.count() as usize;
    let mut last = of;
    let mut last_depth = depth;
    while last_depth < most
        && let Some(heir) = heir_of(heads, bodies, heirs, last)
    {
        last_depth += 1;
        go_on(alloc, row, heads, bodies, subtypes, heir, last_depth)?;
        last = heir;
    }
    Ok(())
}
