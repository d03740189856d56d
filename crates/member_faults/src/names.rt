//! The faults of names that a member list has twice.

ghost use Rattle.std.specs.Prelude.{◌≡◌, [], ◌∷◌, map, IfOk};
ghost use Rattle.type_members.specs.osc_base.FaultRows.{first_from};
ghost use Rattle.type_members.specs.type_heads.Seen.{seen_form};
ghost use Rattle.type_members.specs.type_heads.MemberFaults.{names_among as names_and_labels, names_given, repeated_rows};
ghost use Rattle.type_members.specs.Listed.{seen_listed, seen_row};
ghost use Rattle.type_members.specs.Shared.{fronts_in, members_at, members_in_parts};
ghost use Rattle.member_faults.specs.NamePlaces.{are_distinct as are_distinct_names, lent_names};
ghost use Rattle.fault_sets.specs.NameRows.{ContinuesNames, HasTexts};

use crate::labels::names_among;
use dsl_tree::Ident;
use fault_sets::TextSet;
use name_scope::with_fault;
use osc_base::{Fault, FaultCode};
use std::alloc::{AllocError, Global};
use type_heads::Form;
use type_members::{ListedMember, MemberLists, Part, Span};

/// A fault of one name more.
fn with_name<'a>(
    first: Option<Fault>,
    met: &mut TextSet<'a>,
    name: &'a Ident,
) -> Result<Option<Fault>, AllocError>
    ensures { IfOk result (λ f. ContinuesNames first met.old f met.new (name.entry.now ∷ [])) }
{
    let is_met = met.meet(name.text.as_str())?;
    Ok(with_fault(first, name.place, FaultCode::Twice, is_met))
}

/// Faults of some names more.
fn with_names<'a>(
    first: Option<Fault>,
    met: &mut TextSet<'a>,
    names: &[&'a Ident],
) -> Result<Option<Fault>, AllocError>
    ensures { IfOk result (λ f. ContinuesNames first met.old f met.new (lent_names names.now)) }
{
    let mut found = first;
    for name in names {
        found = with_name(found, met, *name)?;
    }
    Ok(found)
}

/// Faults of the names and labels of some members more.
fn with_members<'a>(
    alloc: Global,
    first: Option<Fault>,
    met: &mut TextSet<'a>,
    members: &[ListedMember<'a>],
) -> Result<Option<Fault>, AllocError>
    ensures { IfOk result (λ f. ContinuesNames first met.old f met.new (names_and_labels (map seen_listed members.now))) }
{
    let names = names_among(alloc, members)?;
    with_names(first, met, names.as_slice())
}

/// Faults of the names and labels in some parts more.
fn with_parts<'a>(
    alloc: Global,
    first: Option<Fault>,
    met: &mut TextSet<'a>,
    lists: &MemberLists<'a>,
    parts: &[Part],
) -> Result<Option<Fault>, AllocError>
    ensures { IfOk result (λ f. ContinuesNames first met.old f met.new (names_and_labels (members_in_parts (map seen_row lists.now.rows.items) parts.now))) }
{
    let mut found = first;
    for part in parts {
        found = with_members(alloc, found, met, lists.part(part))?;
    }
    Ok(found)
}

/// The names that a type of this form has before all members.
fn given_names<'a>(alloc: Global, form: Form<'_>) -> Result<TextSet<'a>, AllocError>
    ensures { IfOk result (λ met. HasTexts met (names_given (seen_form form.entry))) }
{
    let mut met = TextSet::new(alloc);
    if form.is_behaviour() {
        met.meet("duration")?;
    }
    Ok(met)
}

/// Faults of the names and labels of the members at a place, in a type of this form.
pub fn with_all_names(
    alloc: Global,
    first: Option<Fault>,
    form: Form<'_>,
    lists: &MemberLists<'_>,
    span: &Span,
) -> Result<Option<Fault>, AllocError>
    ensures { IfOk result (λ f. f ≡ first_from first (repeated_rows (names_given (seen_form form.entry)) (names_and_labels (members_at (fronts_in lists.now.rows.items) (map seen_row lists.now.rows.items) span.now)))) }
{
    let mut met = given_names(alloc, form)?;
    let found = with_parts(alloc, first, &mut met, lists, lists.front(span.row))?;
    with_members(alloc, found, &mut met, lists.own(span))
}

/// Whether no name or label of some members is there twice.
pub fn are_distinct(alloc: Global, members: &[ListedMember<'_>]) -> Result<bool, AllocError>
    ensures { IfOk result (λ b. b ≡ are_distinct_names (map seen_listed members.now)) }
{
    let mut met = TextSet::new(alloc);
    let found = with_members(alloc, None, &mut met, members)?;
    Ok(found.is_none())
}
