//! Where rows start, and what they come after.

ghost use Rattle.std.specs.Prelude.{◌≡◌, ◌++◌, ◌<◌, List, [], ◌∷◌, Some, filter, length, map, slice_get, IfOk, IfSome, OnOk};
ghost use Rattle.std.specs.Option.{option_map_or};
ghost use Rattle.type_heads.specs.Bodied.{seen_body};
ghost use Rattle.type_heads.specs.Types.{TypeBody};
ghost use Rattle.type_members.specs.Ancestry.{HasEnd};
ghost use Rattle.type_members.specs.Cutting.{AreBare};
ghost use Rattle.type_members.specs.Listed.{AreSubtypes};
ghost use Rattle.type_members.specs.RowEnds.{AreRows};
ghost use Rattle.type_members.specs.Origins.{IsConditionalStart, IsKnownAt, IsOrigin};
ghost use Rattle.type_members.specs.Shared.{fronts_in, has_places as has_some_places, inner_part as inner_of, moved as moved_in, parts_from, place_parts as parts_at_place};

use crate::Subtypes;
use crate::bare::is_flagged;
use crate::bodied::is_conditional;
use crate::cutting::{cut_for, has_places, part_after, part_before};
use crate::holes::Holes;
use crate::places::{Part, Places, Span, Standing, standing_in};
use crate::rows::{Cut, MemberRow, Start};
use std::alloc::{AllocError, Global};
use type_heads::{Body, Heads, TypeId};

/// Where a row can start that begins with a type: nowhere, since the type inherits from none; after the members of its base,
/// which the row's come beside; after all members of the type; or that isn't known.
#[derive(Clone, Copy)]
pub enum Origin {
    Nowhere,
    Beside(Start),
    Within(Start),
    Unknown,
}

/// Where the members of a type stand in rows, if its place is known, and how many types there are from it on.
fn known_place(
    heads: &Heads,
    rows: &[MemberRow<'_>],
    places: &Places,
    of: TypeId,
) -> Option<Standing>
    ensures below { IfSome result (λ at. at.depth < length heads.now) }
    ensures place { (bodies : List TypeBody) → AreRows heads.now bodies rows.now → IfSome result (IsKnownAt heads.now bodies rows.now of) }
{
    let at = standing_in(rows, places, of)?;
    if at.depth < heads.count() as usize && of.0 < heads.count() {
        Some(at)
    } else {
        None
    }
}

/// How many types there are from a type on, each the base of the one before; or as many as all types, if that isn't known.
pub fn depth_of(heads: &Heads, rows: &[MemberRow<'_>], places: &Places, of: TypeId) -> usize
    ensures { (bodies : List TypeBody) → AreRows heads.now bodies rows.now → result < length heads.now → HasEnd heads.now (Some of) result }
{
    let most = heads.count() as usize;
    let Some(base) = heads.base(of) else {
        return 1;
    };
    match known_place(heads, rows, places, base) {
        Some(at) => at.depth + 1,
        None => most,
    }
}

/// The parts at a place.
fn place_parts(alloc: Global, rows: &[MemberRow<'_>], at: Span) -> Result<Vec<Part>, AllocError>
    ensures { IfOk result (λ parts. parts.items ≡ parts_at_place (fronts_in rows.now) at) }
{
    let mut parts = Vec::new(alloc);
    if let Some(row) = rows.get(at.row) {
        parts.extend_from_slice(row.front.as_slice())?;
    }
    parts.push(Part {
        row: at.row,
        from: 0,
        to: at.len,
        inside: 0,
    })?;
    Ok(parts)
}

/// Where a row starts that begins with a conditional subtype whose base stands at a place: all its members are there.
fn conditional_start(
    alloc: Global,
    rows: &[MemberRow<'_>],
    holes: &Holes,
    bare: &[bool],
    at: Span,
    of: TypeId,
) -> Result<Option<Start>, AllocError>
    ensures { IfOk result (λ start. IfSome start (IsConditionalStart rows.now bare.now at of)) }
{
    if is_flagged(bare, of) {
        return Ok(Some(Start { at, cut: None }));
    }
    let parts = place_parts(alloc, rows, at)?;
    match cut_for(rows, parts.as_slice(), holes, of) {
        Some(cut) => Ok(Some(Start { at, cut: Some(cut) })),
        None => Ok(None),
    }
}

/// Where a row can start that begins with a type, given the types through which no member comes down.
pub fn origin_of(
    alloc: Global,
    heads: &Heads,
    bodies: &[Body<'_>],
    subtypes: &Subtypes,
    rows: &[MemberRow<'_>],
    places: &Places,
    holes: &Holes,
    bare: &[bool],
    of: TypeId,
) -> Result<Origin, AllocError>
    requires subtypes { AreSubtypes heads.now (map seen_body bodies.now) subtypes.now }
    requires rows { AreRows heads.now (map seen_body bodies.now) rows.now }
    requires bare { AreBare (map seen_body bodies.now) subtypes.now bare.now }
    ensures { IfOk result (IsOrigin heads.now (map seen_body bodies.now) rows.now of) }
{
    let Some(base) = heads.base(of) else {
        return Ok(Origin::Nowhere);
    };
    let Some(at) = known_place(heads, rows, places, base) else {
        return Ok(Origin::Unknown);
    };
    if !is_conditional(bodies, of) {
        return Ok(Origin::Beside(Start {
            at: at.span,
            cut: None,
        }));
    }
    match conditional_start(alloc, rows, holes, bare, at.span, of)? {
        Some(start) => Ok(Origin::Within(start)),
        None => Ok(Origin::Unknown),
    }
}

/// Puts a part at the end, if it has places.
fn push_part(into: &mut Vec<Part>, part: &Part) -> Result<(), AllocError>
    ensures { OnOk result (into.new.items ≡ into.old.items ++ filter has_some_places (part.now ∷ [])) }
{
    if has_places(part) {
        into.push(*part)?;
    }
    Ok(())
}

/// Puts those of some parts at the end that have places.
fn push_parts(into: &mut Vec<Part>, parts: &[Part]) -> Result<(), AllocError>
    ensures { OnOk result (into.new.items ≡ into.old.items ++ filter has_some_places parts.now) }
{
    for part in parts {
        push_part(into, part)?;
    }
    Ok(())
}

/// What is cut out of a part, with one condition more that is met already. There are never so many that they can't be counted.
fn inner_part(part: &Part, cut: &Cut) -> Result<Part, AllocError>
    ensures { IfOk result (λ inner. inner ≡ inner_of part.now cut.now) }
{
    let Some(inside) = part.inside.checked_add(1) else {
        return Err(AllocError);
    };
    Ok(Part {
        row: part.row,
        from: cut.from,
        to: cut.to,
        inside,
    })
}

/// Parts, with what is cut out of them at the end.
fn moved(alloc: Global, parts: &[Part], cut: &Cut) -> Result<Vec<Part>, AllocError>
    ensures { IfOk result (λ front. front.items ≡ filter has_some_places (moved_in parts.now cut.now)) }
{
    let mut front = Vec::new(alloc);
    let Some(part) = parts.get(cut.part) else {
        return Ok(front);
    };
    push_parts(&mut front, &parts[..cut.part])?;
    push_part(&mut front, &part_before(part, cut))?;
    push_part(&mut front, &part_after(part, cut))?;
    push_parts(&mut front, &parts[cut.part + 1..])?;
    push_part(&mut front, &inner_part(part, cut)?)?;
    Ok(front)
}

/// What a row comes after that starts there.
pub fn front_from(
    alloc: Global,
    rows: &[MemberRow<'_>],
    start: &Start,
) -> Result<Vec<Part>, AllocError>
    ensures { IfOk result (λ front. front.items ≡ parts_from (fronts_in rows.now) (Some start.now)) }
{
    let parts = place_parts(alloc, rows, start.at)?;
    match &start.cut {
        Some(cut) => {
            let front = moved(alloc, parts.as_slice(), cut)?;
            Ok(front)
        }
        None => {
            let mut front = Vec::new(alloc);
            push_parts(&mut front, parts.as_slice())?;
            Ok(front)
        }
    }
}
