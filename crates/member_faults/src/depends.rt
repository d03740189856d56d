//! The conditional subtypes on which one depends.

ghost use Rattle.std.specs.Prelude.{◌≡◌, ◌++◌, List, [], ◌∷◌, None, bytes_eq, cond, filter, find, map, option_and_then, option_to_list, slice_index_or, OnOk};
ghost use Rattle.std.specs.Option.{option_map_or};
ghost use Rattle.type_members.specs.type_heads.Bodied.{seen_body};
ghost use Rattle.type_members.specs.type_heads.Members.{fields_among, is_conditional as is_conditional_type};
ghost use Rattle.type_members.specs.type_heads.MemberFaults.{depends_on};
ghost use Rattle.type_members.specs.type_heads.Table.{base, bases};
ghost use Rattle.type_members.specs.Listed.{lists_of, seen_row};
ghost use Rattle.member_faults.specs.ListedRows.{field_under, near_depended, types_with, under_in};
ghost use Rattle.member_faults.specs.NamePlaces.{AreRowPlaces};

use crate::fields::{FieldHit, condition_field};
use crate::name_places::NamePlaces;
use dsl_tree::HeirCondition;
use fault_sets::push_types;
use std::alloc::{AllocError, Global};
use type_heads::{Body, Heads, TypeId, line};
use type_members::{MemberLists, heir_condition};

/// Puts the conditional subtypes that a field is under at the end.
fn push_hit(hit: Option<FieldHit<'_>>, into: &mut Vec<TypeId>) -> Result<(), AllocError>
    ensures { OnOk result (into.new.items ≡ into.old.items ++ option_map_or (λ h. h.under.now) hit.entry []) }
{
    match hit {
        Some(hit) => push_types(into, hit.under),
        None => Ok(()),
    }
}

/// Puts those at the end that the field of a condition is under.
fn push_under(
    heads: &Heads,
    lists: &MemberLists<'_>,
    places: &[NamePlaces<'_>],
    of: TypeId,
    condition: &HeirCondition,
    into: &mut Vec<TypeId>,
) -> Result<(), AllocError>
    requires { AreRowPlaces places.now (map seen_row lists.now.rows.items) }
    ensures { OnOk result (into.new.items ≡ into.old.items ++ under_in heads.now (lists_of lists.now) of condition.now) }
{
    let hit = condition_field(heads, lists, places, of, condition);
    push_hit(hit, into)?;
    Ok(())
}

/// Puts a type at the end, if it is a conditional subtype.
fn push_conditional(
    bodies: &[Body<'_>],
    of: TypeId,
    into: &mut Vec<TypeId>,
) -> Result<(), AllocError>
    ensures { OnOk result (into.new.items ≡ into.old.items ++ cond (is_conditional_type (map seen_body bodies.now) of) (of ∷ []) []) }
{
    if heir_condition(bodies, of).is_some() {
        into.push(of)?;
    }
    Ok(())
}

/// Puts those of some types at the end that are conditional subtypes.
fn push_all_conditional(
    bodies: &[Body<'_>],
    types: &[TypeId],
    into: &mut Vec<TypeId>,
) -> Result<(), AllocError>
    ensures { OnOk result (into.new.items ≡ into.old.items ++ filter (is_conditional_type (map seen_body bodies.now)) types.now) }
{
    for of in types {
        push_conditional(bodies, *of, into)?;
    }
    Ok(())
}

/// Puts those at the end that the field of the type's condition is under.
fn push_field_under(
    heads: &Heads,
    bodies: &[Body<'_>],
    lists: &MemberLists<'_>,
    places: &[NamePlaces<'_>],
    of: TypeId,
    into: &mut Vec<TypeId>,
) -> Result<(), AllocError>
    requires { AreRowPlaces places.now (map seen_row lists.now.rows.items) }
    ensures { OnOk result (into.new.items ≡ into.old.items ++ field_under heads.now (map seen_body bodies.now) (lists_of lists.now) of) }
{
    match heir_condition(bodies, of) {
        Some(condition) => push_under(heads, lists, places, of, condition, into),
        None => Ok(()),
    }
}

/// Puts the base of a type at the end, if there is one.
fn push_base(heads: &Heads, of: TypeId, into: &mut Vec<TypeId>) -> Result<(), AllocError>
    ensures { OnOk result (into.new.items ≡ into.old.items ++ option_to_list (base heads.now of)) }
{
    if let Some(base) = heads.base(of) {
        into.push(base)?;
    }
    Ok(())
}

/// Puts those at the end that the field of the type's condition is under, and the type's base.
pub fn push_near(
    heads: &Heads,
    bodies: &[Body<'_>],
    lists: &MemberLists<'_>,
    places: &[NamePlaces<'_>],
    of: TypeId,
    into: &mut Vec<TypeId>,
) -> Result<(), AllocError>
    requires { AreRowPlaces places.now (map seen_row lists.now.rows.items) }
    ensures { OnOk result (into.new.items ≡ into.old.items ++ near_depended heads.now (map seen_body bodies.now) (lists_of lists.now) of) }
{
    push_field_under(heads, bodies, lists, places, of, into)?;
    push_base(heads, of, into)?;
    Ok(())
}

/// Puts the conditional subtypes on which one depends at the end: those that the field of its condition is under, and
/// those that it inherits from.
pub fn push_depended(
    alloc: Global,
    heads: &Heads,
    bodies: &[Body<'_>],
    lists: &MemberLists<'_>,
    places: &[NamePlaces<'_>],
    of: TypeId,
    into: &mut Vec<TypeId>,
) -> Result<(), AllocError>
    requires { AreRowPlaces places.now (map seen_row lists.now.rows.items) }
    ensures { OnOk result (into.new.items ≡ into.old.items ++ depends_on (types_with heads.now (map seen_body bodies.now) (lists_of lists.now)) of) }
{
    push_field_under(heads, bodies, lists, places, of, into)?;
    let bases = line(alloc, heads, heads.base(of))?;
    push_all_conditional(bodies, bases.as_slice(), into)?;
    Ok(())
}
