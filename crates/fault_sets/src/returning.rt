//! Whether steps lead from a type back to it, for all types of a program.

ghost use Rattle.std.specs.Prelude.{◌≡◌, ◌&&◌, ◌<◌, ℕ, [], length, nat_lt, true, false, slice_index_or, IfOk, OnOk};
ghost use Rattle.std.specs.List.{list_all};
ghost use Rattle.type_heads.specs.Cycles.{returns};
ghost use Rattle.fault_sets.specs.Ranking.{AreNext, HasLevels, IsShown, falls as all_fall, is_level as is_level_step, level_from, rank, shows as shows_none};

use crate::ranks::ranks_of;
use crate::reach::{Steps, leads_back};
use std::alloc::{AllocError, Global};
use type_heads::{Row, TypeId};

/// Where steps lead from each type, and a rank of each type. If no step leads to a higher rank, then steps that all
/// lead to lower ranks never lead back.
#[derive(Drop)]
pub struct Ranking {
    pub next: Vec<Row<TypeId>>,
    pub ranks: Vec<u32>,
}

/// The rank of a type.
pub fn rank_of(ranks: &[u32], of: TypeId) -> u32
    ensures { result ≡ rank ranks.now of }
{
    match ranks.get(of.0 as usize) {
        Some(rank) => *rank,
        None => 0,
    }
}

fn is_level(count: usize, ranks: &[u32], of: TypeId, to: TypeId) -> bool
    ensures { result ≡ is_level_step count ranks.now of to }
{
    (to.0 as usize) < count && rank_of(ranks, to) <= rank_of(ranks, of)
}

/// Whether no step from a type leads to a higher rank.
fn are_level(count: usize, ranks: &[u32], of: TypeId, next: &[TypeId]) -> bool
    ensures { result ≡ list_all (is_level_step count ranks.now of) next.now }
{
    for to in next {
        if !is_level(count, ranks, of, *to) {
            return false;
        }
    }
    true
}

/// Whether no step from any type leads to a higher rank.
fn all_level(ranks: &[u32], next: &[Row<TypeId>]) -> bool
    requires { length next.now < 4294967296 }
    ensures { result ≡ level_from (length next.now) ranks.now 0 next.now }
{
    let mut number: u32 = 0;
    for row in next {
        if !are_level(next.len(), ranks, TypeId(number), row.as_slice()) {
            return false;
        }
        number += 1;
    }
    true
}

/// Whether all these steps from a type lead to lower ranks.
pub fn falls(ranks: &[u32], of: TypeId, next: &[TypeId]) -> bool
    ensures { result ≡ all_fall ranks.now of next.now }
{
    for to in next {
        if rank_of(ranks, *to) >= rank_of(ranks, of) {
            return false;
        }
    }
    true
}

/// Where steps lead from a type.
fn next_of<S: Steps>(alloc: Global, steps: &S, of: TypeId) -> Result<Row<TypeId>, AllocError>
    ensures { IfOk result (λ next. next ≡ S.next steps.now of) }
{
    let mut next = Vec::new(alloc);
    steps.push_next(of, &mut next)?;
    Ok(Row::of(next))
}

/// Where steps lead from each type.
fn all_next<S: Steps>(alloc: Global, steps: &S, count: u32) -> Result<Vec<Row<TypeId>>, AllocError>
    ensures { IfOk result (λ next. AreNext count (S.next steps.now) next.items) }
{
    let mut all = Vec::new(alloc);
    for number in 0..count {
        all.push(next_of(alloc, steps, TypeId(number))?)?;
    }
    Ok(all)
}

impl Ranking {
    /// Steps and ranks of so many types.
    pub fn of<S: Steps>(alloc: Global, steps: &S, count: u32) -> Result<Ranking, AllocError>
        ensures shown { IfOk result (λ r. IsShown count (S.next steps.now) r) }
        ensures levels { IfOk result (λ r. HasLevels count (S.next steps.now) r) }
    {
        let next = all_next(alloc, steps, count)?;
        let ranks = ranks_of(alloc, next.as_slice())?;
        if all_level(ranks.as_slice(), next.as_slice()) {
            Ok(Ranking { next, ranks })
        } else {
            Ok(Ranking {
                next: Vec::new(alloc),
                ranks: Vec::new(alloc),
            })
        }
    }

    /// Whether ranks show that steps from a type don't lead back to it.
    fn shows_none(&self, of: TypeId) -> bool
        ensures { result ≡ shows_none self.now of }
    {
        match self.next.get(of.0 as usize) {
            Some(row) => falls(self.ranks.as_slice(), of, row.as_slice()),
            None => false,
        }
    }

    /// Whether steps lead from a type back to it. There are `count` types, and this is the ranking of the steps.
    pub fn leads_back<S: Steps>(
        &self,
        alloc: Global,
        steps: &S,
        count: u32,
        of: TypeId,
    ) -> Result<bool, AllocError>
        requires { IsShown count (S.next steps.now) self.now }
        ensures { IfOk result (λ b. b ≡ returns count (S.next steps.now) of) }
    {
        if self.shows_none(of) {
            return Ok(false);
        }
        leads_back(alloc, steps, count, of)
    }
}
