//! What is known of the members in each row and in front of it. So most types need no look at each of their members.

ghost use Rattle.std.specs.Prelude.{◌≡◌, codes, is_some, map, slice_index_or, IfOk};
ghost use Rattle.std.specs.List.{list_any};
ghost use Rattle.dsl_tree.specs.Views.{member_tree};
ghost use Rattle.type_members.specs.type_heads.Seen.{seen_form};
ghost use Rattle.type_members.specs.type_heads.Types.{Member as TypeMember};
ghost use Rattle.type_members.specs.type_heads.Members.{do_declared};
ghost use Rattle.type_members.specs.Listed.{seen_listed, seen_row};
ghost use Rattle.type_members.specs.Shared.{AreStarted, fronts_in};
ghost use Rattle.member_faults.specs.NamePlaces.{AreRowPlaces, has_text, lent_names};
ghost use Rattle.member_faults.specs.RowFacts.{AreAllSo, all_known as all_are_known, facts_before as known_before, facts_with as facts_of, has_right_dos as has_only_right_dos, has_right_values as has_only_right_values, is_distinct_row as has_distinct_names, is_do as is_member_do, is_plain as is_plain_list, next_facts as next_facts_of, none_known as none_is_known};

use crate::dos::{AfterDos, with_dos};
use crate::initial::with_initials;
use crate::labels::names_among;
use crate::name_places::{NamePlaces, may_meet};
use dsl_tree::{CompoundKind, Ident, Member};
use std::alloc::{AllocError, Global};
use type_heads::{Form, Heads};
use type_members::{ListedMember, MemberRow, Start};

/// What is known of members. What isn't known may hold all the same.
#[derive(Clone, Copy)]
pub struct RowFacts {
    /// No name is there twice.
    pub is_distinct: bool,
    /// No name is `duration`.
    pub lacks_duration: bool,
    /// No initial value is wrong.
    pub has_right_values: bool,
    /// There is no `do`.
    pub lacks_do: bool,
    /// There is at most one `do`, and it is under no conditional subtype.
    pub has_right_do: bool,
}

fn all_known() -> RowFacts
    ensures { result ≡ all_are_known }
{
    RowFacts {
        is_distinct: true,
        lacks_duration: true,
        has_right_values: true,
        lacks_do: true,
        has_right_do: true,
    }
}

fn none_known() -> RowFacts
    ensures { result ≡ none_is_known }
{
    RowFacts {
        is_distinct: false,
        lacks_duration: false,
        has_right_values: false,
        lacks_do: false,
        has_right_do: false,
    }
}

/// What is known of a row and what is in front of it.
pub fn facts_at(facts: &[RowFacts], row: usize) -> RowFacts
    ensures { result ≡ slice_index_or facts.now row none_is_known }
{
    match facts.get(row) {
        Some(facts) => *facts,
        None => none_known(),
    }
}

/// What is known of the members in front of a row: what is known where it starts, since these are some of the members there,
/// maybe in another order, and some of them under fewer conditional subtypes.
fn facts_before(known: &[RowFacts], start: Option<Start>) -> RowFacts
    ensures { result ≡ known_before known.now start }
{
    match start {
        Some(start) => facts_at(known, start.at.row),
        None => all_known(),
    }
}

fn is_do(member: &Member) -> bool
    ensures { (m : TypeMember) → result ≡ is_some (do_declared m (member_tree member.now)) }
{
    match member {
        Member::Do { place: _, phase: _ } => true,
        Member::Field(_) | Member::Rule(_) => false,
    }
}

fn has_do(members: &[ListedMember<'_>]) -> bool
    ensures { result ≡ list_any is_member_do (map seen_listed members.now) }
{
    for listed in members {
        if is_do(listed.written.member) {
            return true;
        }
    }
    false
}

fn has_duration(names: &[&Ident]) -> bool
    ensures { result ≡ has_text (codes "duration") (lent_names names.now) }
{
    for name in names {
        if name.text.as_str() == "duration" {
            return true;
        }
    }
    false
}

/// Whether no initial value of some members is wrong.
fn has_right_values(heads: &Heads, members: &[ListedMember<'_>]) -> bool
    ensures { result ≡ has_only_right_values heads.now (map seen_listed members.now) }
{
    with_initials(None, heads, members).is_none()
}

/// Whether each `do` among some members of a scenario is right, after others or not.
fn has_right_dos(is_later: bool, members: &[ListedMember<'_>]) -> bool
    ensures { result ≡ has_only_right_dos is_later (map seen_listed members.now) }
{
    let so_far = AfterDos {
        first: None,
        is_later,
    };
    let form = Form::Compound(CompoundKind::Scenario);
    with_dos(form, so_far, members, 0).first.is_none()
}

/// Whether no name of the row of that number is there twice.
fn is_distinct_row(places: &[NamePlaces<'_>], row: usize) -> bool
    ensures { result ≡ has_distinct_names places.now row }
{
    match places.get(row) {
        Some(row) => row.is_distinct,
        None => false,
    }
}

/// The facts of row `n` with its prefix, from the facts of the prefix and the row's own names.
fn facts_with(
    heads: &Heads,
    places: &[NamePlaces<'_>],
    number: usize,
    row: &MemberRow<'_>,
    names: &[&Ident],
    before: RowFacts,
) -> RowFacts
    ensures { result ≡ facts_of heads.now places.now number row.now.front.items (seen_row row.now) (lent_names names.now) before }
{
    let members = row.members.as_slice();
    let front = row.front.as_slice();
    let is_apart = is_distinct_row(places, number) && !may_meet(places, front, names);
    RowFacts {
        is_distinct: before.is_distinct && is_apart,
        lacks_duration: before.lacks_duration && !has_duration(names),
        has_right_values: before.has_right_values && has_right_values(heads, members),
        lacks_do: before.lacks_do && !has_do(members),
        has_right_do: before.has_right_do && has_right_dos(!before.lacks_do, members),
    }
}

/// What is known of the next row, given what is known of those before it.
fn next_facts(
    alloc: Global,
    heads: &Heads,
    places: &[NamePlaces<'_>],
    known: &[RowFacts],
    row: &MemberRow<'_>,
) -> Result<RowFacts, AllocError>
    ensures { IfOk result (λ f. f ≡ next_facts_of heads.now places.now known.now row.now) }
{
    let names = names_among(alloc, row.members.as_slice())?;
    let before = facts_before(known, row.start);
    Ok(facts_with(heads, places, known.len(), row, names.as_slice(), before))
}

/// What is known of each row and what is in front of it.
pub fn row_facts(
    alloc: Global,
    heads: &Heads,
    rows: &[MemberRow<'_>],
    places: &[NamePlaces<'_>],
) -> Result<Vec<RowFacts>, AllocError>
    requires started { AreStarted rows.now }
    requires places { AreRowPlaces places.now (map seen_row rows.now) }
    ensures { IfOk result (λ all. AreAllSo heads.now (fronts_in rows.now) (map seen_row rows.now) all.items) }
{
    let mut all = Vec::new(alloc);
    for row in rows {
        let facts = next_facts(alloc, heads, places, all.as_slice(), row)?;
        all.push(facts)?;
    }
    Ok(all)
}

/// Whether members of which this is known give no fault by themselves in a type of that form.
pub fn is_plain(facts: RowFacts, form: Form<'_>) -> bool
    ensures { result ≡ is_plain_list facts (seen_form form.entry) }
{
    facts.is_distinct
        && ((!form.is_behaviour() || facts.lacks_duration)
            && (facts.has_right_values
                && (facts.lacks_do || (form.is_scenario() && facts.has_right_do))))
}
