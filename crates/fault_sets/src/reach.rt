//! What is reached from types by steps.

ghost use Rattle.std.specs.Prelude.{◌≡◌, ◌++◌, ℕ, List, [], ◌∷◌, flat_map, IfOk, OnOk};
ghost use Rattle.type_heads.specs.Cycles.{fresh, reached as reached_by, returns};
ghost use Rattle.fault_sets.specs.Reaching.{AddsFresh, HasNumbers};

use crate::sets::NumberSet;
use std::alloc::{AllocError, Global};
use type_heads::TypeId;

/// Steps from a type to others.
pub trait Steps {
    ghost next: { Self → ℕ → List ℕ };

    /// Puts the types to which one step leads at the end.
    fn push_next(&self, of: TypeId, into: &mut Vec<TypeId>) -> Result<(), AllocError>
        ensures { OnOk result (into.new.items ≡ into.old.items ++ next self.now of) };
}

/// Puts a type at the end, if it wasn't met before.
fn push_fresh(met: &mut NumberSet, of: TypeId, into: &mut Vec<TypeId>) -> Result<(), AllocError>
    ensures { OnOk result (AddsFresh met.old into.old.items (of ∷ []) met.new into.new.items) }
{
    if met.meet(u128::from(of.0))? {
        return Ok(());
    }
    into.push(of)?;
    Ok(())
}

/// Those of some types that weren't met before, each once.
pub fn all_fresh(
    alloc: Global,
    met: &mut NumberSet,
    types: &[TypeId],
) -> Result<Vec<TypeId>, AllocError>
    ensures { IfOk result (λ new. AddsFresh met.old [] types.now met.new new.items) }
{
    let mut new = Vec::new(alloc);
    for of in types {
        push_fresh(met, *of, &mut new)?;
    }
    Ok(new)
}

/// The types to which one step leads from some types.
fn all_next<S: Steps>(alloc: Global, steps: &S, types: &[TypeId]) -> Result<Vec<TypeId>, AllocError>
    ensures { IfOk result (λ next. next.items ≡ flat_map (S.next steps.now) types.now) }
{
    let mut next = Vec::new(alloc);
    for of in types {
        steps.push_next(*of, &mut next)?;
    }
    Ok(next)
}

pub fn push_types(into: &mut Vec<TypeId>, types: &[TypeId]) -> Result<(), AllocError>
    ensures { OnOk result (into.new.items ≡ into.old.items ++ types.now) }
{
    for of in types {
        into.push(*of)?;
    }
    Ok(())
}

/// All that is reached in so many rounds from some types, that are met already, those among them.
pub fn reached<S: Steps>(
    alloc: Global,
    steps: &S,
    rounds: u64,
    met: &mut NumberSet,
    start: Vec<TypeId>,
) -> Result<Vec<TypeId>, AllocError>
    requires { HasNumbers met.old start.items }
    ensures { IfOk result (λ found. found.items ≡ reached_by rounds (S.next steps.now) [] start.items) }
{
    let mut found = Vec::new(alloc);
    let mut new = start;
    for _round in 0..rounds {
        if new.is_empty() {
            return Ok(found);
        }
        let next = all_next(alloc, steps, new.as_slice())?;
        push_types(&mut found, new.as_slice())?;
        new = all_fresh(alloc, met, next.as_slice())?;
    }
    Ok(found)
}

/// The types to which one step leads, each once.
fn first_types<S: Steps>(
    alloc: Global,
    steps: &S,
    met: &mut NumberSet,
    of: TypeId,
) -> Result<Vec<TypeId>, AllocError>
    requires { met.old ≡ [] }
    ensures types { IfOk result (λ new. new.items ≡ fresh [] (S.next steps.now of)) }
    ensures met { IfOk result (λ new. HasNumbers met.new new.items) }
{
    let mut next = Vec::new(alloc);
    steps.push_next(of, &mut next)?;
    all_fresh(alloc, met, next.as_slice())
}

/// Whether one or more steps lead from a type back to it. There are `count` types.
pub fn leads_back<S: Steps>(
    alloc: Global,
    steps: &S,
    count: u32,
    of: TypeId,
) -> Result<bool, AllocError>
    ensures { IfOk result (λ b. b ≡ returns count (S.next steps.now) of) }
{
    let mut met = NumberSet::new(alloc);
    let start = first_types(alloc, steps, &mut met, of)?;
    let all = reached(alloc, steps, u64::from(count) + 1, &mut met, start)?;
    Ok(all.as_slice().contains(&of))
}
