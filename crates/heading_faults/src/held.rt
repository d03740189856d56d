//! The types that a type holds.

ghost use Rattle.std.specs.Prelude.{◌≡◌, ◌+◌, ◌++◌, ℕ, List, [], ◌∷◌, flat_map, length, map, slice_index_or, IfOk, OnOk};
ghost use Rattle.type_members.specs.dsl_tree.Views.{member_tree};
ghost use Rattle.type_members.specs.type_heads.Bodied.{seen_body, seen_written};
ghost use Rattle.type_members.specs.type_heads.Cycles.{fresh, reached as reached_by};
ghost use Rattle.type_members.specs.type_heads.HeadingFaults.{field_types, held_types};
ghost use Rattle.type_members.specs.type_heads.Members.{body};
ghost use Rattle.type_members.specs.type_heads.Table.{bases};
ghost use Rattle.type_members.specs.type_heads.Types.{Written};
ghost use Rattle.heading_faults.specs.Holding.{fields_of};
ghost use Rattle.fault_sets.specs.Reaching.{HasNumbers};
ghost use Rattle.type_members.specs.Listed.{AreSubtypes};

use dsl_tree::Member;
use fault_sets::{NumberSet, Steps, all_fresh, push_types, reached};
use std::alloc::{AllocError, Global};
use type_heads::{Body, Heads, TypeId, WrittenMember, line};
use type_members::Subtypes;

/// Steps from a type to its conditional subtypes.
#[derive(Drop)]
struct ToSubtypes<'h> {
    subtypes: &'h Subtypes,
}

impl<'h> Steps for ToSubtypes<'h> {
    ghost use Rattle.std.specs.Prelude.{slice_index_or, []};

    ghost next = { λ s t. slice_index_or s.subtypes.now t [] };

    fn push_next(&self, of: TypeId, into: &mut Vec<TypeId>) -> Result<(), AllocError>
        ensures { OnOk result (into.new.items ≡ into.old.items ++ slice_index_or self.now.subtypes.now of []) }
    {
        push_types(into, self.subtypes.of(of))
    }
}

/// A type and those that it inherits from, each once, which are met then.
fn first_family(
    alloc: Global,
    heads: &Heads,
    met: &mut NumberSet,
    of: TypeId,
) -> Result<Vec<TypeId>, AllocError>
    requires { met.old ≡ [] }
    ensures types { IfOk result (λ first. first.items ≡ fresh [] (of ∷ bases heads.now of)) }
    ensures met { IfOk result (λ first. HasNumbers met.new first.items) }
{
    let mut whole = vec![in alloc; of]?;
    let bases = line(alloc, heads, heads.base(of))?;
    push_types(&mut whole, bases.as_slice())?;
    all_fresh(alloc, met, whole.as_slice())
}

/// The types whose members an object of a type may have: the type, those that it inherits from, and the conditional
/// subtypes of all these.
fn family(
    alloc: Global,
    heads: &Heads,
    subtypes: &Subtypes,
    of: TypeId,
) -> Result<Vec<TypeId>, AllocError>
    ensures { IfOk result (λ family. family.items ≡ reached_by (length heads.now + 1) (λ t. slice_index_or subtypes.now t []) [] (fresh [] (of ∷ bases heads.now of))) }
{
    let mut met = NumberSet::new(alloc);
    let first = first_family(alloc, heads, &mut met, of)?;
    let rounds = u64::from(heads.count()) + 1;
    let family = reached(alloc, &ToSubtypes { subtypes }, rounds, &mut met, first)?;
    Ok(family)
}

/// Puts the type of a field at the end, if the member is one and its type is declared.
fn push_field(heads: &Heads, member: &Member, into: &mut Vec<TypeId>) -> Result<(), AllocError>
    ensures { OnOk result ((w : Written) → into.new.items ≡ into.old.items ++ field_types heads.now w (member_tree member.now)) }
{
    let Member::Field(field) = member else {
        return Ok(());
    };
    if let Some(of) = heads.named(None, field.of.text.as_str()) {
        into.push(of)?;
    }
    Ok(())
}

/// Puts the types of the fields among members at the end.
fn push_fields(
    heads: &Heads,
    members: &[WrittenMember<'_>],
    into: &mut Vec<TypeId>,
) -> Result<(), AllocError>
    ensures { OnOk result (into.new.items ≡ into.old.items ++ fields_of heads.now (map seen_written members.now)) }
{
    for written in members {
        push_field(heads, written.member, into)?;
    }
    Ok(())
}

/// Puts the types of the fields that a type declares at the end.
pub fn push_own(
    heads: &Heads,
    bodies: &[Body<'_>],
    of: TypeId,
    into: &mut Vec<TypeId>,
) -> Result<(), AllocError>
    ensures { OnOk result (into.new.items ≡ into.old.items ++ fields_of heads.now ((body (map seen_body bodies.now) of).own ++ (body (map seen_body bodies.now) of).more)) }
{
    match bodies.get(of.0 as usize) {
        Some(body) => {
            push_fields(heads, body.own.as_slice(), into)?;
            push_fields(heads, body.more.as_slice(), into)
        }
        None => Ok(()),
    }
}

/// Puts the types of the fields that some types declare at the end.
fn push_all(
    heads: &Heads,
    bodies: &[Body<'_>],
    types: &[TypeId],
    into: &mut Vec<TypeId>,
) -> Result<(), AllocError>
    ensures { OnOk result (into.new.items ≡ into.old.items ++ flat_map (λ u. fields_of heads.now ((body (map seen_body bodies.now) u).own ++ (body (map seen_body bodies.now) u).more)) types.now) }
{
    for of in types {
        push_own(heads, bodies, *of, into)?;
    }
    Ok(())
}

/// Puts the types that a type holds at the end: those of the fields that an object of the type may have. A type without
/// members holds none, even if others inherit from it, which is a fault.
pub fn push_held(
    alloc: Global,
    heads: &Heads,
    bodies: &[Body<'_>],
    subtypes: &Subtypes,
    of: TypeId,
    into: &mut Vec<TypeId>,
) -> Result<(), AllocError>
    requires { AreSubtypes heads.now (map seen_body bodies.now) subtypes.now }
    ensures { OnOk result (into.new.items ≡ into.old.items ++ held_types heads.now (map seen_body bodies.now) of) }
{
    if !heads.form(of).has_members() {
        return Ok(());
    }
    let family = family(alloc, heads, subtypes, of)?;
    push_all(heads, bodies, family.as_slice(), into)?;
    Ok(())
}
