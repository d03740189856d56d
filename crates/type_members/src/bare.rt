//! Conditional subtypes through which no member comes down.

ghost use Rattle.std.specs.Prelude.{◌≡◌, [], map, slice_index_or, true, false, IfOk};
ghost use Rattle.std.specs.List.{list_all};
ghost use Rattle.type_heads.specs.Bodied.{seen_body};
ghost use Rattle.type_heads.specs.Members.{body};
ghost use Rattle.type_members.specs.Cutting.{AreBare, IsBare};

use crate::Subtypes;
use crate::bodied::conditional_base;
use std::alloc::{AllocError, Global};
use type_heads::{Body, Heads, TypeId};

/// Whether a type has no members of its own, in its declaration and its extensions.
fn has_none(bodies: &[Body<'_>], of: TypeId) -> bool
    ensures own { result ≡ true → (body (map seen_body bodies.now) of).own ≡ [] }
    ensures more { result ≡ true → (body (map seen_body bodies.now) of).more ≡ [] }
{
    match bodies.get(of.0 as usize) {
        Some(body) => body.own.as_slice().is_empty() && body.more.as_slice().is_empty(),
        None => true,
    }
}

/// Whether a type is flagged.
pub fn is_flagged(flags: &[bool], of: TypeId) -> bool
    ensures { result ≡ slice_index_or flags.now of false }
{
    match flags.get(of.0 as usize) {
        Some(flag) => *flag,
        None => false,
    }
}

fn are_flagged(flags: &[bool], types: &[TypeId]) -> bool
    ensures { result ≡ list_all (λ c. slice_index_or flags.now c false) types.now }
{
    for of in types {
        if !is_flagged(flags, *of) {
            return false;
        }
    }
    true
}

/// Whether no member comes down through a type, if none does through those that are flagged.
fn is_bare(bodies: &[Body<'_>], subtypes: &Subtypes, flags: &[bool], of: TypeId) -> bool
    ensures { result ≡ true → IsBare (map seen_body bodies.now) subtypes.now flags.now of }
{
    has_none(bodies, of) && are_flagged(flags, subtypes.of(of))
}

/// Whether no member comes down through a type, if it is flagged and none does through the others that are.
fn is_right(bodies: &[Body<'_>], subtypes: &Subtypes, flags: &[bool], of: TypeId) -> bool
    ensures { result ≡ true → slice_index_or flags.now of false ≡ true → IsBare (map seen_body bodies.now) subtypes.now flags.now of }
{
    !is_flagged(flags, of) || is_bare(bodies, subtypes, flags, of)
}

/// Whether no member comes down through any type that is flagged.
fn are_bare(count: u32, bodies: &[Body<'_>], subtypes: &Subtypes, flags: &[bool]) -> bool
    ensures { result ≡ true → AreBare (map seen_body bodies.now) subtypes.now flags.now }
{
    if flags.len() != count as usize {
        return false;
    }
    for number in 0..count {
        if !is_right(bodies, subtypes, flags, TypeId(number)) {
            return false;
        }
    }
    true
}

fn unflag(flags: &mut [bool], of: TypeId) {
    if let Some(flag) = flags.get_mut(of.0 as usize) {
        *flag = false;
    }
}

/// Flags the types through which no member comes down, given all conditional subtypes, none before its base. It is tested.
fn flag_types(
    alloc: Global,
    heads: &Heads,
    bodies: &[Body<'_>],
    order: &[TypeId],
) -> Result<Vec<bool>, AllocError> {
    let mut flags = Vec::new(alloc);
    for number in 0..heads.count() {
        flags.push(has_none(bodies, TypeId(number)))?;
    }
    for of in order.iter().rev() {
        if let Some(base) = conditional_base(heads, bodies, *of)
            && !is_flagged(flags.as_slice(), *of)
        {
            unflag(flags.as_mut_slice(), base);
        }
    }
    Ok(flags)
}

/// For each type, whether it is known that no member comes down through it, given all conditional subtypes, none before its
/// base.
pub fn bare_types(
    alloc: Global,
    heads: &Heads,
    bodies: &[Body<'_>],
    subtypes: &Subtypes,
    order: &[TypeId],
) -> Result<Vec<bool>, AllocError>
    ensures { IfOk result (λ flags. AreBare (map seen_body bodies.now) subtypes.now flags.items) }
{
    let flags = flag_types(alloc, heads, bodies, order)?;
    if are_bare(heads.count(), bodies, subtypes, flags.as_slice()) {
        return Ok(flags);
    }
    Ok(Vec::new(alloc))
}
