//! Which members of the base of a conditional subtype come down through it, told by those around them.

ghost use Rattle.std.specs.Prelude.{◌≡◌, ◌+◌, ◌<◌, ◌⊎◌, true, false, drop, length, map, IfSome};
ghost use Rattle.std.specs.List.{list_all, list_any};
ghost use Rattle.type_members.specs.Cutting.{IsCutFor, IsToldApart, IsWidened, begins, cut_out as cut_out_of, ends, is_free as is_under_none, is_within, one_begins, one_ends};
ghost use Rattle.type_members.specs.Listed.{seen_listed, seen_row};
ghost use Rattle.type_members.specs.Shared.{has_places as has_some_places, lies_in, members_in_part, under_inside};

use crate::ListedMember;
use crate::holes::{Hole, Holes};
use crate::listed::between;
use crate::places::Part;
use crate::rows::{Cut, MemberRow};
use type_heads::TypeId;

/// Whether a type is the first of the conditional subtypes that a member is under, without the outermost `inside`.
fn is_within_type(member: &ListedMember<'_>, inside: usize, of: TypeId) -> bool
    ensures { result ≡ is_within of (under_inside inside (seen_listed member.now)) }
{
    match member.under.as_slice().get(inside) {
        Some(first) => *first == of,
        None => false,
    }
}

fn has_first(members: &[ListedMember<'_>], inside: usize, of: TypeId) -> bool
    ensures { result ≡ begins (is_within of) (map (under_inside inside) (map seen_listed members.now)) }
{
    match members.first() {
        Some(member) => is_within_type(member, inside, of),
        None => false,
    }
}

fn has_last(members: &[ListedMember<'_>], inside: usize, of: TypeId) -> bool
    ensures { result ≡ ends (is_within of) (map (under_inside inside) (map seen_listed members.now)) }
{
    if members.is_empty() {
        return false;
    }
    is_within_type(&members[members.len() - 1], inside, of)
}

/// Whether a part begins with a member that comes down through a type.
fn begins_within(rows: &[MemberRow<'_>], part: &Part, of: TypeId) -> bool
    ensures { result ≡ begins (is_within of) (members_in_part (map seen_row rows.now) part.now) }
{
    let Some(row) = rows.get(part.row) else {
        return false;
    };
    let members = between(row.members.as_slice(), part.from, part.to);
    has_first(members, part.inside, of)
}

/// Whether a part ends with a member that comes down through a type.
fn ends_within(rows: &[MemberRow<'_>], part: &Part, of: TypeId) -> bool
    ensures { result ≡ ends (is_within of) (members_in_part (map seen_row rows.now) part.now) }
{
    let Some(row) = rows.get(part.row) else {
        return false;
    };
    let members = between(row.members.as_slice(), part.from, part.to);
    has_last(members, part.inside, of)
}

/// Whether one of some parts begins with a member that comes down through a type.
fn one_begins_within(rows: &[MemberRow<'_>], parts: &[Part], of: TypeId) -> bool
    ensures { result ≡ one_begins (is_within of) (map seen_row rows.now) parts.now }
{
    for part in parts {
        if begins_within(rows, part, of) {
            return true;
        }
    }
    false
}

/// Whether one of some parts ends with a member that comes down through a type.
fn one_ends_within(rows: &[MemberRow<'_>], parts: &[Part], of: TypeId) -> bool
    ensures { result ≡ one_ends (is_within of) (map seen_row rows.now) parts.now }
{
    for part in parts {
        if ends_within(rows, part, of) {
            return true;
        }
    }
    false
}

/// What is cut out of a part, as it is seen there.
fn cut_out(part: &Part, cut: &Cut) -> Part
    ensures { result ≡ cut_out_of part.now cut.now }
{
    Part {
        row: part.row,
        from: cut.from,
        to: cut.to,
        inside: part.inside,
    }
}

/// What a cut leaves of the beginning of a part.
pub fn part_before(part: &Part, cut: &Cut) -> Part
    ensures { result ≡ record part.now { to = cut.now.from } }
{
    Part {
        row: part.row,
        from: part.from,
        to: cut.from,
        inside: part.inside,
    }
}

/// What a cut leaves of the end of a part.
pub fn part_after(part: &Part, cut: &Cut) -> Part
    ensures { result ≡ record part.now { from = cut.now.to } }
{
    Part {
        row: part.row,
        from: cut.to,
        to: part.to,
        inside: part.inside,
    }
}

/// Whether what is cut out of a part begins and ends with members that come down through a type, and the rest of the part
/// doesn't end or begin with one beside it.
fn is_apart_in(rows: &[MemberRow<'_>], part: &Part, cut: &Cut, of: TypeId) -> bool
    ensures first { result ≡ true → begins (is_within of) (members_in_part (map seen_row rows.now) (cut_out_of part.now cut.now)) ≡ true }
    ensures last { result ≡ true → ends (is_within of) (members_in_part (map seen_row rows.now) (cut_out_of part.now cut.now)) ≡ true }
    ensures before { result ≡ true → ends (is_within of) (members_in_part (map seen_row rows.now) (record part.now { to = cut.now.from })) ≡ false }
    ensures after { result ≡ true → begins (is_within of) (members_in_part (map seen_row rows.now) (record part.now { from = cut.now.to })) ≡ false }
{
    let all = cut_out(part, cut);
    begins_within(rows, &all, of)
        && ends_within(rows, &all, of)
        && !ends_within(rows, &part_before(part, cut), of)
        && !begins_within(rows, &part_after(part, cut), of)
}

/// Whether a cut lies in a part.
fn is_in_part(cut: &Cut, part: &Part) -> bool
    ensures { result ≡ lies_in cut.now part.now }
{
    part.from <= cut.from && (cut.from <= cut.to && cut.to <= part.to)
}

/// Whether what is cut out of one of some parts is all that comes down through a type.
fn is_told_apart(rows: &[MemberRow<'_>], parts: &[Part], cut: &Cut, of: TypeId) -> bool
    ensures { result ≡ true → IsToldApart (map seen_row rows.now) parts.now of cut.now }
{
    let Some(part) = parts.get(cut.part) else {
        return false;
    };
    is_in_part(cut, part)
        && is_apart_in(rows, part, cut, of)
        && !one_ends_within(rows, &parts[..cut.part], of)
        && !one_begins_within(rows, &parts[cut.part + 1..], of)
}

/// The last of some parts in which a hole lies. It is tested.
fn part_of(parts: &[Part], hole: &Hole) -> Option<usize> {
    let mut left = parts.len();
    while left > 0 {
        left -= 1;
        let part = parts.get(left)?;
        if part.row == hole.row && part.from <= hole.from && hole.to <= part.to {
            return Some(left);
        }
    }
    None
}

/// Whether a member is under no conditional subtype but the outermost `inside`.
fn is_free(member: &ListedMember<'_>, inside: usize) -> bool
    ensures { result ≡ is_under_none (under_inside inside (seen_listed member.now)) }
{
    member.under_inside(inside).is_empty()
}

fn all_free_in(members: &[ListedMember<'_>], inside: usize) -> bool
    ensures { result ≡ list_all is_under_none (map (under_inside inside) (map seen_listed members.now)) }
{
    for member in members {
        if !is_free(member, inside) {
            return false;
        }
    }
    true
}

/// Whether the members in a part are under no conditional subtype, as they are seen there.
fn all_free(rows: &[MemberRow<'_>], part: &Part) -> bool
    ensures { result ≡ list_all is_under_none (members_in_part (map seen_row rows.now) part.now) }
{
    let Some(row) = rows.get(part.row) else {
        return true;
    };
    let members = between(row.members.as_slice(), part.from, part.to);
    all_free_in(members, part.inside)
}

/// Whether a part has places.
pub fn has_places(part: &Part) -> bool
    ensures { result ≡ has_some_places part.now }
{
    part.from < part.to
}

fn one_has_places(parts: &[Part]) -> bool
    ensures { result ≡ list_any has_some_places parts.now }
{
    for part in parts {
        if has_places(part) {
            return true;
        }
    }
    false
}

/// Whether nothing comes after a cut, and the members before it in its part are under nothing.
fn can_widen(rows: &[MemberRow<'_>], parts: &[Part], part: &Part, cut: &Cut) -> bool
    requires { cut.now.part < length parts.now }
    ensures end { result ≡ true → cut.now.to ≡ part.now.to }
    ensures after { result ≡ true → list_any has_some_places (drop (cut.now.part + 1) parts.now) ≡ false }
    ensures free { result ≡ true → list_all is_under_none (members_in_part (map seen_row rows.now) (record part.now { to = cut.now.from })) ≡ true }
{
    cut.to == part.to
        && !one_has_places(&parts[cut.part + 1..])
        && all_free(rows, &part_before(part, cut))
}

/// A cut that begins where its part does, if it takes out the same: so parts aren't cut without need.
fn widened(rows: &[MemberRow<'_>], parts: &[Part], cut: Cut) -> Cut
    ensures { (result ≡ cut) ⊎ IsWidened (map seen_row rows.now) parts.now cut result }
{
    let Some(part) = parts.get(cut.part) else {
        return cut;
    };
    if can_widen(rows, parts, part, &cut) {
        return Cut {
            part: cut.part,
            from: part.from,
            to: cut.to,
        };
    }
    cut
}

/// What to cut out of the parts of its base for a conditional subtype, if the members that come down through it are found.
pub fn cut_for(rows: &[MemberRow<'_>], parts: &[Part], holes: &Holes, of: TypeId) -> Option<Cut>
    ensures { IfSome result (IsCutFor (map seen_row rows.now) parts.now of) }
{
    let hole = holes.of(of)?;
    let part = part_of(parts, &hole)?;
    let cut = Cut {
        part,
        from: hole.from,
        to: hole.to,
    };
    if is_told_apart(rows, parts, &cut, of) {
        Some(widened(rows, parts, cut))
    } else {
        None
    }
}
