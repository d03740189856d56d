//! The faults of the members of all types.

ghost use Rattle.std.specs.Prelude.{◌≡◌, [], ◌∷◌, Some, flat_map, length, map, option_and_then, option_map, slice_index_or, IfOk};
ghost use Rattle.type_members.specs.osc_base.FaultRows.{first_from, row};
ghost use Rattle.type_members.specs.type_heads.Bodied.{seen_body};
ghost use Rattle.type_members.specs.type_heads.Cycles.{returns};
ghost use Rattle.type_members.specs.type_heads.Members.{field};
ghost use Rattle.type_members.specs.type_heads.MemberFaults.{condition_rows, depends_on, type_rows};
ghost use Rattle.type_members.specs.type_heads.Table.{all_types, base};
ghost use Rattle.type_members.specs.Listed.{lists_of, seen_row};
ghost use Rattle.type_members.specs.Shared.{fronts_in, members_at};
ghost use Rattle.member_faults.specs.ConditionRows.{found_rows};
ghost use Rattle.member_faults.specs.ListedRows.{found_field, seen_hit, types_with};
ghost use Rattle.fault_sets.specs.Ranking.{IsShown};
ghost use Rattle.member_faults.specs.RowFacts.{AreAllSo};

use crate::conditions::with_decided;
use crate::depends_on::DependsOn;
use crate::dos::with_all_dos;
use crate::fields::{FieldHit, condition_field};
use crate::initial::with_all_initials;
use crate::names::with_all_names;
use crate::near_depended::near_ranking;
use crate::row_facts::{RowFacts, facts_at, is_plain, row_facts};
use dsl_tree::HeirCondition;
use fault_sets::{Ranking, Steps, is_past};
use name_scope::with_fault;
use osc_base::{Fault, FaultCode, Place};
use std::alloc::{AllocError, Global};
use type_heads::{Heads, TypeId};
use type_members::{Span, heir_condition};

/// A fault at this place, if steps lead from a type back to it. There are `count` types.
fn with_return<S: Steps>(
    alloc: Global,
    first: Option<Fault>,
    steps: &S,
    ranking: &Ranking,
    count: u32,
    of: TypeId,
    place: Place,
) -> Result<Option<Fault>, AllocError>
    requires { IsShown count (S.next steps.now) ranking.now }
    ensures { IfOk result (λ f. f ≡ first_from first (row place FaultCode.Cycle (returns count (S.next steps.now) of) ∷ [])) }
{
    if is_past(first, place) {
        return Ok(first);
    }
    let is_fault = ranking.leads_back(alloc, steps, count, of)?;
    Ok(with_fault(first, place, FaultCode::Cycle, is_fault))
}

/// Faults of a condition on a field.
fn with_found(
    first: Option<Fault>,
    heads: &Heads,
    condition: &HeirCondition,
    hit: FieldHit<'_>,
) -> Option<Fault>
    ensures { result ≡ first_from first (found_rows heads.now condition.now (Some (seen_hit hit.entry))) }
{
    match heads.named(None, hit.field.of.text.as_str()) {
        Some(of) => with_decided(first, heads, of, condition, hit.field),
        None => first,
    }
}

/// Faults of a condition on a field, if its base has that field.
fn with_hit(
    first: Option<Fault>,
    heads: &Heads,
    condition: &HeirCondition,
    hit: Option<FieldHit<'_>>,
) -> Option<Fault>
    ensures { result ≡ first_from first (found_rows heads.now condition.now (option_map seen_hit hit.entry)) }
{
    match hit {
        Some(hit) => with_found(first, heads, condition, hit),
        None => with_fault(first, condition.field.place, FaultCode::Unknown, true),
    }
}

/// Faults of the condition of a conditional subtype.
fn with_own_condition(
    alloc: Global,
    first: Option<Fault>,
    depends: &DependsOn<'_>,
    ranking: &Ranking,
    of: TypeId,
    condition: &HeirCondition,
) -> Result<Option<Fault>, AllocError>
    requires { IsShown (length depends.now.heads.now) (depends_on (types_with depends.now.heads.now (map seen_body depends.now.bodies.now) (lists_of depends.now.lists.now))) ranking.now }
    ensures { IfOk result (λ f. let ts = types_with depends.now.heads.now (map seen_body depends.now.bodies.now) (lists_of depends.now.lists.now) in f ≡ first_from first (row condition.now.field.place FaultCode.Cycle (returns (length depends.now.heads.now) (depends_on ts) of) ∷ found_rows depends.now.heads.now condition.now (option_map found_field (option_and_then (λ b. field ts b condition.now.field.text) (base depends.now.heads.now of))))) }
{
    let heads = depends.heads;
    let place = condition.field.place;
    let first = with_return(alloc, first, depends, ranking, heads.count(), of, place)?;
    let hit = condition_field(heads, depends.lists, depends.places, of, condition);
    Ok(with_hit(first, heads, condition, hit))
}

/// Faults of the condition of a type, if it is a conditional subtype.
fn with_condition(
    alloc: Global,
    first: Option<Fault>,
    depends: &DependsOn<'_>,
    ranking: &Ranking,
    of: TypeId,
) -> Result<Option<Fault>, AllocError>
    requires { IsShown (length depends.now.heads.now) (depends_on (types_with depends.now.heads.now (map seen_body depends.now.bodies.now) (lists_of depends.now.lists.now))) ranking.now }
    ensures { IfOk result (λ f. f ≡ first_from first (condition_rows (types_with depends.now.heads.now (map seen_body depends.now.bodies.now) (lists_of depends.now.lists.now)) of)) }
{
    match heir_condition(depends.bodies, of) {
        Some(condition) => {
            let found = with_own_condition(alloc, first, depends, ranking, of, condition)?;
            Ok(found)
        }
        None => Ok(first),
    }
}

/// Faults of the members of a type, each of which is looked at.
fn with_listed(
    alloc: Global,
    first: Option<Fault>,
    depends: &DependsOn<'_>,
    ranking: &Ranking,
    of: TypeId,
    span: &Span,
) -> Result<Option<Fault>, AllocError>
    requires shown { IsShown (length depends.now.heads.now) (depends_on (types_with depends.now.heads.now (map seen_body depends.now.bodies.now) (lists_of depends.now.lists.now))) ranking.now }
    requires same { members_at (fronts_in depends.now.lists.now.rows.items) (map seen_row depends.now.lists.now.rows.items) span.now ≡ slice_index_or (lists_of depends.now.lists.now) of [] }
    ensures { IfOk result (λ f. f ≡ first_from first (type_rows (types_with depends.now.heads.now (map seen_body depends.now.bodies.now) (lists_of depends.now.lists.now)) of)) }
{
    let form = depends.heads.form(of);
    let named = with_all_names(alloc, first, form, depends.lists, span)?;
    let told = with_all_dos(named, form, depends.lists, span);
    let set = with_all_initials(told, depends.heads, depends.lists, span);
    let found = with_condition(alloc, set, depends, ranking, of)?;
    Ok(found)
}

/// Faults of the members of a type. They aren't looked at if it is known that they give none by themselves.
fn with_type(
    alloc: Global,
    first: Option<Fault>,
    depends: &DependsOn<'_>,
    ranking: &Ranking,
    facts: &[RowFacts],
    of: TypeId,
) -> Result<Option<Fault>, AllocError>
    requires shown { IsShown (length depends.now.heads.now) (depends_on (types_with depends.now.heads.now (map seen_body depends.now.bodies.now) (lists_of depends.now.lists.now))) ranking.now }
    requires so { AreAllSo depends.now.heads.now (fronts_in depends.now.lists.now.rows.items) (map seen_row depends.now.lists.now.rows.items) facts.now }
    ensures { IfOk result (λ f. f ≡ first_from first (type_rows (types_with depends.now.heads.now (map seen_body depends.now.bodies.now) (lists_of depends.now.lists.now)) of)) }
{
    let span = depends.lists.span(of);
    let form = depends.heads.form(of);
    if is_plain(facts_at(facts, span.row), form) {
        return with_condition(alloc, first, depends, ranking, of);
    }
    with_listed(alloc, first, depends, ranking, of, &span)
}

/// Faults of the members of all types.
pub fn with_types(
    alloc: Global,
    first: Option<Fault>,
    depends: &DependsOn<'_>,
) -> Result<Option<Fault>, AllocError>
    requires { length (lists_of depends.now.lists.now) ≡ length depends.now.heads.now }
    ensures { IfOk result (λ f. f ≡ first_from first (flat_map (type_rows (types_with depends.now.heads.now (map seen_body depends.now.bodies.now) (lists_of depends.now.lists.now))) (all_types depends.now.heads.now))) }
{
    let count = depends.heads.count();
    let ranking = near_ranking(alloc, depends)?;
    let facts = row_facts(alloc, depends.heads, depends.lists.rows(), depends.places)?;
    let mut found = first;
    for number in 0..count {
        let of = TypeId(number);
        found = with_type(alloc, found, depends, &ranking, facts.as_slice(), of)?;
    }
    Ok(found)
}
