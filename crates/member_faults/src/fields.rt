//! The field of a name in a list of members.

ghost use Rattle.std.specs.Prelude.{◌≡◌, None, Some, [], bytes_eq, cond, find, map, option_and_then, option_map, slice_get, slice_index_or};
ghost use Rattle.std.specs.List.{list_any};
ghost use Rattle.dsl_tree.specs.Views.{field_tree};
ghost use Rattle.type_members.specs.type_heads.Members.{fields_among};
ghost use Rattle.type_members.specs.type_heads.Table.{base};
ghost use Rattle.type_members.specs.Listed.{lists_of, seen_listed, seen_row};
ghost use Rattle.type_members.specs.Shared.{members_in_part, members_in_parts, under_inside};
ghost use Rattle.member_faults.specs.ListedRows.{field_declared, field_found, found_field, seen_hit};
ghost use Rattle.member_faults.specs.NamePlaces.{ArePlaces, AreRowPlaces};

use crate::name_places::NamePlaces;
use dsl_tree::{FieldDecl, HeirCondition, Ident, Member};
use type_heads::{Heads, TypeId};
use type_members::{ListedMember, MemberLists, Part};

/// A field, and the conditional subtypes that it is under.
#[derive(Clone, Copy)]
pub struct FieldHit<'l> {
    pub field: &'l FieldDecl,
    pub under: &'l [TypeId],
}

fn has_name(names: &[Ident], name: &str) -> bool
    ensures { result ≡ list_any (λ i. bytes_eq i.text name.now) names.now }
{
    names.iter().any(|i| i.text.as_str() == name)
}

/// The field, if it has that name.
fn if_named<'l>(field: &'l FieldDecl, under: &'l [TypeId], name: &str) -> Option<FieldHit<'l>>
    ensures { option_map seen_hit result ≡ cond (list_any (λ i. bytes_eq i.text name.now) field.entry.now.names) (Some (record { tree = field_tree field.entry.now; under = under.entry.now })) None }
{
    if has_name(field.names.as_slice(), name) {
        Some(FieldHit { field, under })
    } else {
        None
    }
}

/// The field of that name that a member declares. `inside` is how many of the outermost conditions are met already.
fn field_in<'l>(listed: &'l ListedMember<'_>, inside: usize, name: &str) -> Option<FieldHit<'l>>
    ensures { option_map seen_hit result ≡ field_declared name.now (under_inside inside (seen_listed listed.entry.now)) }
{
    match listed.written.member {
        Member::Field(field) => if_named(field, listed.under_inside(inside), name),
        Member::Rule(_) | Member::Do { place: _, phase: _ } => None,
    }
}

/// The first field of that name among members. `inside` is how many of the outermost conditions are met already.
fn field_among<'l>(
    members: &'l [ListedMember<'_>],
    inside: usize,
    name: &str,
) -> Option<FieldHit<'l>>
    ensures { option_map seen_hit result ≡ field_found name.now (map (under_inside inside) (map seen_listed members.entry.now)) }
{
    for listed in members {
        match field_in(listed, inside, name) {
            Some(hit) => return Some(hit),
            None => continue,
        }
    }
    None
}

/// The field of that name that the member of that number declares. `inside` is how many of its outermost conditions are met.
fn field_at<'l>(
    members: &'l [ListedMember<'_>],
    number: usize,
    inside: usize,
    name: &str,
) -> Option<FieldHit<'l>>
    ensures { option_map seen_hit result ≡ option_and_then (λ m. field_declared name.now (under_inside inside m)) (slice_get (map seen_listed members.entry.now) number) }
{
    match members.get(number) {
        Some(listed) => field_in(listed, inside, name),
        None => None,
    }
}

/// The first field of that name in a part of a row, given the places of the row's names.
fn field_in_row<'l>(
    lists: &'l MemberLists<'_>,
    row: &NamePlaces<'_>,
    part: &Part,
    name: &str,
) -> Option<FieldHit<'l>>
    requires { ArePlaces row.now (slice_index_or (map seen_row lists.now.rows.items) part.now.row []) }
    ensures { option_map seen_hit result ≡ field_found name.now (members_in_part (map seen_row lists.entry.now.rows.items) part.now) }
{
    if !row.is_distinct {
        return field_among(lists.part(part), part.inside, name);
    }
    match row.in_part(part, name) {
        Some(number) => {
            let before = Part {
                row: part.row,
                from: 0,
                to: part.to,
                inside: part.inside,
            };
            field_at(lists.part(&before), number, part.inside, name)
        }
        None => None,
    }
}

/// The first field of that name in a part.
fn field_in_part<'l>(
    lists: &'l MemberLists<'_>,
    places: &[NamePlaces<'_>],
    part: &Part,
    name: &str,
) -> Option<FieldHit<'l>>
    requires { AreRowPlaces places.now (map seen_row lists.now.rows.items) }
    ensures { option_map seen_hit result ≡ field_found name.now (members_in_part (map seen_row lists.entry.now.rows.items) part.now) }
{
    match places.get(part.row) {
        Some(row) => field_in_row(lists, row, part, name),
        None => field_among(lists.part(part), part.inside, name),
    }
}

/// The first field of that name in some parts.
fn field_in_parts<'l>(
    lists: &'l MemberLists<'_>,
    places: &[NamePlaces<'_>],
    parts: &[Part],
    name: &str,
) -> Option<FieldHit<'l>>
    requires { AreRowPlaces places.now (map seen_row lists.now.rows.items) }
    ensures { option_map seen_hit result ≡ field_found name.now (members_in_parts (map seen_row lists.entry.now.rows.items) parts.now) }
{
    for part in parts {
        match field_in_part(lists, places, part, name) {
            Some(hit) => return Some(hit),
            None => continue,
        }
    }
    None
}

/// The field of that name of a type.
fn field_of<'l>(
    lists: &'l MemberLists<'_>,
    places: &[NamePlaces<'_>],
    of: TypeId,
    name: &str,
) -> Option<FieldHit<'l>>
    requires { AreRowPlaces places.now (map seen_row lists.now.rows.items) }
    ensures { option_map seen_hit result ≡ field_found name.now (slice_index_or (lists_of lists.entry.now) of []) }
{
    let span = lists.span(of);
    match field_in_parts(lists, places, lists.front(span.row), name) {
        Some(hit) => Some(hit),
        None => {
            let own = Part {
                row: span.row,
                from: 0,
                to: span.len,
                inside: 0,
            };
            field_in_part(lists, places, &own, name)
        }
    }
}

/// The field of its base that the condition of a conditional subtype looks at.
pub fn condition_field<'l>(
    heads: &Heads,
    lists: &'l MemberLists<'_>,
    places: &[NamePlaces<'_>],
    of: TypeId,
    condition: &HeirCondition,
) -> Option<FieldHit<'l>>
    requires { AreRowPlaces places.now (map seen_row lists.now.rows.items) }
    ensures { option_map seen_hit result ≡ option_map found_field (option_and_then (λ b. find (λ f. bytes_eq f.name.text condition.now.field.text) (fields_among (slice_index_or (lists_of lists.entry.now) b []))) (base heads.now of)) }
{
    let base = heads.base(of)?;
    field_of(lists, places, base, condition.field.text.as_str())
}
