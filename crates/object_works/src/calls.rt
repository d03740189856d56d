//! The phases of the `do` of an object.

ghost use Rattle.std.specs.Prelude.{◌≡◌, ◌++◌, ◌∷◌, [], flat_map, map, option_to_list, IfOk, OnOk};
ghost use Rattle.dsl_tree.specs.Views.{phase_tree};
ghost use Rattle.scene_expansion.specs.composition.Calls.{PhaseHere};
ghost use Rattle.scene_expansion.specs.composition.Expansion.{calling as calling_of};
ghost use Rattle.scene_expansion.specs.composition.SeenParts.{seen_binding};
ghost use Rattle.scene_expansion.specs.expansion_laws.Works.{bindings_made as bindings_of, do_works, object_works, phase_works};
ghost use Rattle.scene_expansion.specs.program_calls.PlacedPhases.{seen_phase, seen_turn};
ghost use Rattle.expr_nodes.specs.type_heads.Members.{the_do};
ghost use Rattle.scene_expansion.specs.SeenWorks.{seen_call, seen_work};
ghost use Rattle.program_texts.specs.program_fields.SeenFields.{seen_do};
ghost use Rattle.program_texts.specs.SeenTexts.{types_in};
ghost use Rattle.object_works.specs.Phases.{choice_of, invocation_works, phase_here_works};

use crate::bindings::bindings_made;
use crate::copies::{copy_bindings, copy_guards, copy_way};
use crate::within::Within;
use dsl_tree::{InvokeNode, Phase};
use expr_nodes::Turn;
use osc_base::{Path, Row};
use program_texts::{Guard, ProgramTexts, TypeDo, TypeId};
use scene_expansion::{Call, PlacedPhase, Work, from_object, invoked, phases_in};
use std::alloc::{AllocError, Global};

/// Puts the choices of a way at the end.
fn push_choices(
    alloc: Global,
    guards: &mut Row<Guard>,
    object: &Path,
    way: &[Turn],
) -> Result<(), AllocError>
    ensures { OnOk result (guards.new ≡ guards.old ++ map (choice_of object.now) (map seen_turn way.now)) }
{
    for turn in way {
        guards.push(Guard::Choice {
            phase: from_object(alloc, object, &turn.phase)?,
            member: turn.member,
        })?;
    }
    Ok(())
}

/// The conditions of a phase: those of the object, and the choices on the phase's way.
fn phase_guards(alloc: Global, within: &Within<'_>, way: &[Turn]) -> Result<Row<Guard>, AllocError>
    ensures { IfOk result (λ gs. gs ≡ within.now.guards.now ++ map (choice_of within.now.object.now) (map seen_turn way.now)) }
{
    let mut guards = copy_guards(alloc, within.guards)?;
    push_choices(alloc, &mut guards, within.object, way)?;
    Ok(guards)
}

/// A phase of the object.
fn calling(
    alloc: Global,
    within: &Within<'_>,
    behaviour: &TypeDo<'_>,
    placed: &PlacedPhase<'_>,
) -> Result<Call, AllocError>
    ensures { IfOk result (λ c. seen_call c ≡ calling_of (map seen_binding within.now.bindings.now) within.now.object.now within.now.guards.now (seen_do behaviour.now) (seen_phase placed.now)) }
{
    let guards = phase_guards(alloc, within, placed.place.way.as_slice())?;
    let bindings = copy_bindings(alloc, within.bindings)?;
    let way = copy_way(alloc, placed.place.way.as_slice())?;
    Ok(Call {
        object: within.object.copy(alloc)?,
        bindings,
        holder: TypeId(behaviour.holder),
        way,
        path: from_object(alloc, within.object, &placed.place.path)?,
        guards,
    })
}

/// Puts an invocation at the end, if something is invoked.
fn push_invocation<'p>(
    alloc: Global,
    texts: &ProgramTexts<'p>,
    into: &mut Vec<Work<'p>>,
    steps: u32,
    call: Call,
    node: &'p InvokeNode,
) -> Result<(), AllocError>
    ensures { OnOk result (map seen_work into.new.items ≡ map seen_work into.old.items ++ invocation_works steps (types_in texts.now) (seen_call call) node.entry.now) }
{
    let Some(of) = invoked(alloc, texts.types(), call.holder, node)? else {
        return Ok(());
    };
    let bindings = bindings_made(alloc, texts, &call, node, of)?;
    into.push(Work::Invoke {
        steps,
        call,
        node,
        of,
        bindings,
    })?;
    Ok(())
}

/// Puts a phase at the end.
fn push_phase<'p>(
    alloc: Global,
    texts: &ProgramTexts<'p>,
    into: &mut Vec<Work<'p>>,
    steps: u32,
    call: Call,
    phase: &'p Phase,
) -> Result<(), AllocError>
    ensures { OnOk result (map seen_work into.new.items ≡ map seen_work into.old.items ++ phase_works steps (types_in texts.now) (seen_call call) (phase_tree phase.entry.now)) }
{
    match phase {
        Phase::Comp(node) => {
            into.push(Work::Comp { call, node })?;
            Ok(())
        }
        Phase::Invoke(node) => push_invocation(alloc, texts, into, steps, call, node),
        Phase::Wait(node) => {
            into.push(Work::Wait { call, node })?;
            Ok(())
        }
    }
}

/// Puts a phase of the object at the end.
fn push_placed<'p>(
    alloc: Global,
    texts: &ProgramTexts<'p>,
    into: &mut Vec<Work<'p>>,
    within: &Within<'_>,
    behaviour: &TypeDo<'p>,
    placed: &PlacedPhase<'p>,
) -> Result<(), AllocError>
    ensures { OnOk result (map seen_work into.new.items ≡ map seen_work into.old.items ++ phase_here_works within.now.steps (types_in texts.now) (map seen_binding within.now.bindings.now) within.now.object.now within.now.guards.now (seen_do behaviour.now) (seen_phase placed.now)) }
{
    let call = calling(alloc, within, behaviour, placed)?;
    push_phase(alloc, texts, into, within.steps, call, placed.phase)
}

/// Puts phases of the object at the end.
fn push_phases<'p>(
    alloc: Global,
    texts: &ProgramTexts<'p>,
    into: &mut Vec<Work<'p>>,
    within: &Within<'_>,
    behaviour: &TypeDo<'p>,
    phases: &[PlacedPhase<'p>],
) -> Result<(), AllocError>
    ensures { OnOk result (map seen_work into.new.items ≡ map seen_work into.old.items ++ flat_map (phase_here_works within.now.steps (types_in texts.now) (map seen_binding within.now.bindings.now) within.now.object.now within.now.guards.now (seen_do behaviour.now)) (map seen_phase phases.now)) }
{
    for placed in phases {
        push_placed(alloc, texts, into, within, behaviour, placed)?;
    }
    Ok(())
}

/// Puts the phases of a `do` of the object at the end.
fn push_do<'p>(
    alloc: Global,
    texts: &ProgramTexts<'p>,
    into: &mut Vec<Work<'p>>,
    within: &Within<'_>,
    behaviour: &TypeDo<'p>,
) -> Result<(), AllocError>
    ensures { OnOk result (map seen_work into.new.items ≡ map seen_work into.old.items ++ do_works within.now.steps (types_in texts.now) (map seen_binding within.now.bindings.now) within.now.object.now within.now.guards.now (seen_do behaviour.now)) }
{
    let phases = phases_in(alloc, behaviour.phase)?;
    push_phases(alloc, texts, into, within, behaviour, phases.as_slice())
}

/// Puts the phases of the object's `do` at the end, if it has one.
pub(crate) fn push_dos<'p>(
    alloc: Global,
    texts: &ProgramTexts<'p>,
    into: &mut Vec<Work<'p>>,
    within: &Within<'_>,
) -> Result<(), AllocError>
    ensures { OnOk result (map seen_work into.new.items ≡ map seen_work into.old.items ++ flat_map (do_works within.now.steps (types_in texts.now) (map seen_binding within.now.bindings.now) within.now.object.now within.now.guards.now) (option_to_list (the_do (types_in texts.now) within.now.of))) }
{
    match texts.the_do(within.of) {
        Some(behaviour) => push_do(alloc, texts, into, within, &behaviour),
        None => Ok(()),
    }
}
