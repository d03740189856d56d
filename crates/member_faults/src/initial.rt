//! The faults of initial values.

ghost use Rattle.std.specs.Prelude.{◌≡◌, ◌&&◌, [], ◌∷◌, None, Some, false, map, not, is_some, option_map};
ghost use Rattle.std.specs.Option.{option_map_or};
ghost use Rattle.type_members.specs.osc_base.FaultRows.{first_from, row};
ghost use Rattle.type_members.specs.Listed.{seen_listed, seen_row};
ghost use Rattle.type_members.specs.Shared.{fronts_in, members_at, members_in_parts};
ghost use Rattle.dsl_tree.specs.Views.{expr_tree, field_tree, member_tree};
ghost use Rattle.type_members.specs.type_heads.Table.{form, is_object, named};
ghost use Rattle.type_members.specs.type_heads.MemberFaults.{first_name_place as place_of_first, initial_rows, is_list_of as makes_list};
ghost use Rattle.member_faults.specs.RowFacts.{initials_among};

use dsl_tree::{Expr, FieldDecl, Ident, Member};
use name_scope::with_fault;
use osc_base::{Fault, FaultCode, Place};
use type_heads::Heads;
use type_members::{ListedMember, MemberLists, Part, Span};

/// The most elements of a list.
const MOST_ELEMENTS: usize = 64;

/// The place of the first name, or else the one given.
fn first_name_place(names: &[Ident], place: Place) -> Place
    ensures { result ≡ place_of_first names.now place }
{
    match names.first() {
        Some(name) => name.place,
        None => place,
    }
}

/// Whether it is a list constructor that isn't too long.
fn is_list(initial: &Expr) -> bool
    ensures { result ≡ makes_list (Some (expr_tree initial.now)) }
{
    match initial {
        Expr::Listed { place: _, items } => items.as_slice().len() <= MOST_ELEMENTS,
        _ => false,
    }
}

fn is_list_of(initial: &Option<Expr>) -> bool
    ensures { result ≡ makes_list (option_map expr_tree initial.now) }
{
    match initial {
        Some(initial) => is_list(initial),
        None => false,
    }
}

fn is_of_object(heads: &Heads, field: &FieldDecl) -> bool
    ensures { result ≡ option_map_or (λ t. is_object (form heads.now t)) (named heads.now None field.now.of.text) false }
{
    match heads.named(None, field.of.text.as_str()) {
        Some(of) => heads.form(of).is_object(),
        None => false,
    }
}

fn with_field(first: Option<Fault>, heads: &Heads, field: &FieldDecl) -> Option<Fault>
    ensures { result ≡ first_from first (row (place_of_first field.now.names field.now.of.place) FaultCode.WrongKind (is_some field.now.initial && option_map_or (λ t. is_object (form heads.now t)) (named heads.now None field.now.of.text) false) ∷ row field.now.of.place FaultCode.BadArgument (is_some field.now.list && not (makes_list (option_map expr_tree field.now.initial))) ∷ []) }
{
    let of = field.of.place;
    let place = first_name_place(field.names.as_slice(), of);
    let has_value = field.initial.is_some() && is_of_object(heads, field);
    let first = with_fault(first, place, FaultCode::WrongKind, has_value);
    let is_unlisted = field.list.is_some() && !is_list_of(&field.initial);
    with_fault(first, of, FaultCode::BadArgument, is_unlisted)
}

/// Faults of the initial value of a member.
fn with_initial(first: Option<Fault>, heads: &Heads, member: &Member) -> Option<Fault>
    ensures { result ≡ first_from first (initial_rows heads.now (member_tree member.now)) }
{
    match member {
        Member::Field(field) => with_field(first, heads, field),
        Member::Rule(_) | Member::Do { place: _, phase: _ } => first,
    }
}

/// Faults of the initial values of members.
pub fn with_initials(
    first: Option<Fault>,
    heads: &Heads,
    members: &[ListedMember<'_>],
) -> Option<Fault>
    ensures { result ≡ first_from first (initials_among heads.now (map seen_listed members.now)) }
{
    let mut found = first;
    for listed in members {
        found = with_initial(found, heads, listed.written.member);
    }
    found
}

/// Faults of the initial values in some parts.
fn with_parts(
    first: Option<Fault>,
    heads: &Heads,
    lists: &MemberLists<'_>,
    parts: &[Part],
) -> Option<Fault>
    ensures { result ≡ first_from first (initials_among heads.now (members_in_parts (map seen_row lists.now.rows.items) parts.now)) }
{
    let mut found = first;
    for part in parts {
        found = with_initials(found, heads, lists.part(part));
    }
    found
}

/// Faults of the initial values of the members at a place.
pub fn with_all_initials(
    first: Option<Fault>,
    heads: &Heads,
    lists: &MemberLists<'_>,
    span: &Span,
) -> Option<Fault>
    ensures { result ≡ first_from first (initials_among heads.now (members_at (fronts_in lists.now.rows.items) (map seen_row lists.now.rows.items) span.now)) }
{
    let found = with_parts(first, heads, lists, lists.front(span.row));
    with_initials(found, heads, lists.own(span))
}
