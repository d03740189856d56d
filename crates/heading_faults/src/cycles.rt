//! The faults of types that depend on themselves.

ghost use Rattle.std.specs.Prelude.{◌≡◌, ◌&&◌, ◌||◌, [], ◌∷◌, length, map, IfOk};
ghost use Rattle.type_members.specs.osc_base.FaultRows.{first_from, row};
ghost use Rattle.type_members.specs.type_heads.Bodied.{seen_body};
ghost use Rattle.type_members.specs.type_heads.Table.{all_types, bases, form, has_members};
ghost use Rattle.type_members.specs.type_heads.Members.{body, has};
ghost use Rattle.type_members.specs.type_heads.Cycles.{returns};
ghost use Rattle.type_members.specs.type_heads.HeadingFaults.{cycle_row, held_types};
ghost use Rattle.fault_sets.specs.Ranking.{IsShown};

use crate::held_types::HeldTypes;
use crate::levels::held_ranking;
use fault_sets::{Ranking, Steps, is_past};
use name_scope::with_fault;
use osc_base::{Fault, FaultCode, Place};
use std::alloc::{AllocError, Global};
use type_heads::{Body, Heads, TypeId};

/// Whether a type inherits from itself, or steps lead from it back to it.
fn depends_on_itself<S: Steps>(
    alloc: Global,
    heads: &Heads,
    steps: &S,
    ranking: &Ranking,
    of: TypeId,
) -> Result<bool, AllocError>
    requires { IsShown (length heads.now) (S.next steps.now) ranking.now }
    ensures { IfOk result (λ b. b ≡ (has of (bases heads.now of) || returns (length heads.now) (S.next steps.now) of)) }
{
    if heads.has_base(of, of) {
        return Ok(true);
    }
    ranking.leads_back(alloc, steps, heads.count(), of)
}

/// Whether a type with members depends on itself.
fn is_cyclic<S: Steps>(
    alloc: Global,
    heads: &Heads,
    steps: &S,
    ranking: &Ranking,
    of: TypeId,
) -> Result<bool, AllocError>
    requires { IsShown (length heads.now) (S.next steps.now) ranking.now }
    ensures { IfOk result (λ b. b ≡ (has_members (form heads.now of) && (has of (bases heads.now of) || returns (length heads.now) (S.next steps.now) of))) }
{
    if !heads.form(of).has_members() {
        return Ok(false);
    }
    depends_on_itself(alloc, heads, steps, ranking, of)
}

/// A fault of a type whose name stands at this place, if it depends on itself by these steps.
fn with_cycle<S: Steps>(
    alloc: Global,
    first: Option<Fault>,
    heads: &Heads,
    steps: &S,
    ranking: &Ranking,
    of: TypeId,
    place: Place,
) -> Result<Option<Fault>, AllocError>
    requires { IsShown (length heads.now) (S.next steps.now) ranking.now }
    ensures { IfOk result (λ f. f ≡ first_from first (row place FaultCode.Cycle (has_members (form heads.now of) && (has of (bases heads.now of) || returns (length heads.now) (S.next steps.now) of)) ∷ [])) }
{
    if is_past(first, place) {
        return Ok(first);
    }
    let is_fault = is_cyclic(alloc, heads, steps, ranking, of)?;
    Ok(with_fault(first, place, FaultCode::Cycle, is_fault))
}

/// Where the name of a type stands.
fn place_of(bodies: &[Body<'_>], of: TypeId) -> Place
    ensures { result ≡ (body (map seen_body bodies.now) of).place }
{
    match bodies.get(of.0 as usize) {
        Some(body) => body.place,
        None => Place {
            file: 0,
            line: 0,
            column: 0,
            token: 0,
        },
    }
}

/// A fault of a type that depends on itself.
fn with_type(
    alloc: Global,
    first: Option<Fault>,
    held: &HeldTypes<'_>,
    ranking: &Ranking,
    of: TypeId,
) -> Result<Option<Fault>, AllocError>
    requires { IsShown (length held.now.heads.now) (held_types held.now.heads.now (map seen_body held.now.bodies.now)) ranking.now }
    ensures { IfOk result (λ f. f ≡ first_from first (cycle_row held.now.heads.now (map seen_body held.now.bodies.now) of ∷ [])) }
{
    let place = place_of(held.bodies, of);
    with_cycle(alloc, first, held.heads, held, ranking, of, place)
}

/// Faults of all types that depend on themselves.
pub fn with_cycles(
    alloc: Global,
    first: Option<Fault>,
    held: &HeldTypes<'_>,
) -> Result<Option<Fault>, AllocError>
    ensures { IfOk result (λ f. f ≡ first_from first (map (cycle_row held.now.heads.now (map seen_body held.now.bodies.now)) (all_types held.now.heads.now))) }
{
    let count = held.heads.count();
    let ranking = held_ranking(alloc, held)?;
    let mut found = first;
    for number in 0..count {
        found = with_type(alloc, found, held, &ranking, TypeId(number))?;
    }
    Ok(found)
}
