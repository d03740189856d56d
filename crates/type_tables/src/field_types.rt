//! The types of fields among members.

ghost use Rattle.std.specs.Prelude.{◌≡◌, [], None, Some, bytes_eq, cond, find, map, option_map, slice_index_or};
ghost use Rattle.std.specs.List.{list_all, list_any};
ghost use Rattle.dsl_tree.specs.Views.{field_tree, member_tree};
ghost use Rattle.type_members.specs.type_heads.Members.{fields_among};
ghost use Rattle.type_members.specs.type_heads.Types.{Field};
ghost use Rattle.type_members.specs.Listed.{lists_of, seen_listed, seen_row};
ghost use Rattle.type_members.specs.Shared.{part_at};
ghost use Rattle.type_tables.specs.Entries.{named_among, named_in};
ghost use Rattle.type_tables.specs.InParts.{first_found};
ghost use Rattle.type_tables.specs.Looked.{field_type_among, has_type as type_there, have_types as types_there};

use dsl_tree::{FieldDecl, Ident, Member};
use type_members::{Heads, ListedMember, MemberLists, MemberRow, Part, TypeId};

/// Whether one of the names is that name.
fn has_name(names: &[Ident], name: &str) -> bool
    ensures { result ≡ list_any (λ i. bytes_eq i.text name.now) names.now }
{
    names.iter().any(|i| i.text.as_str() == name)
}

fn field_if<'a>(field: &'a FieldDecl, name: &str) -> Option<&'a FieldDecl>
    ensures { option_map (λ f. field_tree f.now) result ≡ cond (list_any (λ i. bytes_eq i.text name.now) field.entry.now.names) (Some (field_tree field.entry.now)) None }
{
    if has_name(field.names.as_slice(), name) {
        Some(field)
    } else {
        None
    }
}

/// The field of that name that a member declares.
fn field_in<'a>(member: &'a Member, name: &str) -> Option<&'a FieldDecl>
    ensures { option_map (λ f. field_tree f.now) result ≡ named_in name.now (member_tree member.entry.now) }
{
    match member {
        Member::Field(field) => field_if(field, name),
        Member::Rule(_) | Member::Do { place: _, phase: _ } => None,
    }
}

/// The first field of that name among members.
fn first_named<'a>(members: &[ListedMember<'a>], name: &str) -> Option<&'a FieldDecl>
    ensures { option_map (λ f. field_tree f.now) result ≡ named_among name.now (map seen_listed members.now) }
{
    for member in members {
        if let Some(field) = field_in(member.written.member, name) {
            return Some(field);
        }
    }
    None
}

/// The first field of that name among the members in parts.
fn named_in_parts<'a>(lists: &MemberLists<'a>, parts: &[Part], name: &str) -> Option<&'a FieldDecl>
    ensures { option_map (λ f. field_tree f.now) result ≡ first_found (λ p. named_among name.now (part_at (map seen_row lists.now.rows.items) p)) parts.now }
{
    for part in parts {
        if let Some(field) = first_named(lists.part(part), name) {
            return Some(field);
        }
    }
    None
}

/// The first field of that name among the members of a type.
fn listed_field<'a>(lists: &MemberLists<'a>, of: TypeId, name: &str) -> Option<&'a FieldDecl>
    ensures { option_map (λ f. field_tree f.now) result ≡ option_map (λ f. f.tree) (find (λ f. bytes_eq f.name.text name.now) (fields_among (slice_index_or (lists_of lists.now) of []))) }
{
    let span = lists.span(of);
    match named_in_parts(lists, lists.front(span.row), name) {
        Some(field) => Some(field),
        None => first_named(lists.own(&span), name),
    }
}

/// The type of the first field of that name among the members of a type.
pub(crate) fn listed_type(
    heads: &Heads,
    lists: &MemberLists<'_>,
    of: TypeId,
    name: &str,
) -> Option<TypeId>
    ensures { result ≡ field_type_among heads.now (slice_index_or (lists_of lists.now) of []) name.now }
{
    let field = listed_field(lists, of, name)?;
    heads.named(None, field.of.text.as_str())
}

/// Whether the type of a field is declared.
fn has_type(heads: &Heads, member: &Member) -> bool
    ensures { result ≡ type_there heads.now (member_tree member.now) }
{
    match member {
        Member::Field(field) => heads.named(None, field.of.text.as_str()).is_some(),
        Member::Rule(_) | Member::Do { place: _, phase: _ } => true,
    }
}

/// Whether each field among members has a declared type.
fn have_types(heads: &Heads, members: &[ListedMember<'_>]) -> bool
    ensures { result ≡ types_there heads.now (map seen_listed members.now) }
{
    for member in members {
        if !has_type(heads, member.written.member) {
            return false;
        }
    }
    true
}

/// Whether each field among the members of rows has a declared type.
pub(crate) fn all_have_types(heads: &Heads, rows: &[MemberRow<'_>]) -> bool
    ensures { result ≡ list_all (types_there heads.now) (map seen_row rows.now) }
{
    for row in rows {
        if !have_types(heads, row.members.as_slice()) {
            return false;
        }
    }
    true
}
