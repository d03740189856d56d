//! Whether types hold only types of lower ranks, by one look at each type.
//!
//! A type inherits from one of no higher rank, a conditional subtype has the rank of its base, and the fields of a type
//! have types of lower ranks. Then no type holds itself.

ghost use Rattle.std.specs.Prelude.{◌≡◌, ◌&&◌, length, map, IfOk};
ghost use Rattle.std.specs.List.{list_all};
ghost use Rattle.type_members.specs.type_heads.Bodied.{seen_body};
ghost use Rattle.type_members.specs.type_heads.HeadingFaults.{held_types};
ghost use Rattle.type_members.specs.type_heads.Table.{all_types};
ghost use Rattle.heading_faults.specs.HeldRanks.{base_fits, type_fits, types_fit};
ghost use Rattle.fault_sets.specs.Ranking.{IsShown};

use crate::held::push_own;
use crate::held_types::HeldTypes;
use fault_sets::{Ranking, falls, rank_of, ranks_of};
use osc_base::Row;
use std::alloc::{AllocError, Global};
use type_heads::{Body, Heads, TypeId};
use type_members::{Subtypes, heir_condition};

/// The types that a type inherits from or holds by its own fields, and its conditional subtypes.
fn near_types(
    alloc: Global,
    heads: &Heads,
    bodies: &[Body<'_>],
    subtypes: &Subtypes,
    of: TypeId,
) -> Result<Row<TypeId>, AllocError> {
    let mut near = Vec::new(alloc);
    if let Some(base) = heads.base(of) {
        near.push(base)?;
    }
    near.extend_from_slice(subtypes.of(of))?;
    push_own(heads, bodies, of, &mut near)?;
    Ok(Row::of(near))
}

/// Ranks by which the types fit, if there are such ranks. No contract says so: they are tested.
fn near_ranks(
    alloc: Global,
    heads: &Heads,
    bodies: &[Body<'_>],
    subtypes: &Subtypes,
) -> Result<Vec<u32>, AllocError> {
    let mut near = Vec::new(alloc);
    for number in 0..heads.count() {
        near.push(near_types(alloc, heads, bodies, subtypes, TypeId(number))?)?;
    }
    ranks_of(alloc, near.as_slice())
}

/// Whether the base of a type has no higher rank, and the same rank if the type is a conditional subtype.
fn fits_base(heads: &Heads, bodies: &[Body<'_>], ranks: &[u32], of: TypeId) -> bool
    ensures { result ≡ base_fits heads.now (map seen_body bodies.now) ranks.now of }
{
    match heads.base(of) {
        Some(base) => {
            rank_of(ranks, base) <= rank_of(ranks, of)
                && (heir_condition(bodies, of).is_none()
                    || rank_of(ranks, of) <= rank_of(ranks, base))
        }
        None => true,
    }
}

/// Whether the base of a type fits, and the fields of the type have types of lower ranks.
fn fits(
    alloc: Global,
    heads: &Heads,
    bodies: &[Body<'_>],
    ranks: &[u32],
    of: TypeId,
) -> Result<bool, AllocError>
    ensures { IfOk result (λ b. b ≡ type_fits heads.now (map seen_body bodies.now) ranks.now of) }
{
    let mut held = Vec::new(alloc);
    push_own(heads, bodies, of, &mut held)?;
    Ok(fits_base(heads, bodies, ranks, of) && falls(ranks, of, held.as_slice()))
}

/// Whether all types fit.
fn all_fit(
    alloc: Global,
    heads: &Heads,
    bodies: &[Body<'_>],
    ranks: &[u32],
) -> Result<bool, AllocError>
    ensures { IfOk result (λ b. b ≡ list_all (type_fits heads.now (map seen_body bodies.now) ranks.now) (all_types heads.now)) }
{
    for number in 0..heads.count() {
        if !fits(alloc, heads, bodies, ranks, TypeId(number))? {
            return Ok(false);
        }
    }
    Ok(true)
}

/// Whether all types fit, and each body is that of a type.
fn are_ranks(
    alloc: Global,
    heads: &Heads,
    bodies: &[Body<'_>],
    ranks: &[u32],
) -> Result<bool, AllocError>
    ensures { IfOk result (λ b. b ≡ types_fit heads.now (map seen_body bodies.now) ranks.now) }
{
    let is_fit = all_fit(alloc, heads, bodies, ranks)?;
    Ok(bodies.len() <= heads.count() as usize && is_fit)
}

/// A ranking of so many types without steps.
fn without_steps(alloc: Global, count: u32) -> Result<Ranking, AllocError> {
    let mut next = Vec::new(alloc);
    for _type in 0..count {
        next.push(Row::new(alloc))?;
    }
    Ok(Ranking {
        next,
        ranks: Vec::new(alloc),
    })
}

/// A ranking of the steps from types to those that they hold. If ranks show that no steps lead back, no steps are kept.
pub fn held_ranking(alloc: Global, held: &HeldTypes<'_>) -> Result<Ranking, AllocError>
    ensures { IfOk result (IsShown (length held.now.heads.now) (held_types held.now.heads.now (map seen_body held.now.bodies.now))) }
{
    let ranks = near_ranks(alloc, held.heads, held.bodies, held.subtypes)?;
    let is_fit = are_ranks(alloc, held.heads, held.bodies, ranks.as_slice())?;
    if is_fit {
        return without_steps(alloc, held.heads.count());
    }
    Ranking::of(alloc, held, held.heads.count())
}
