//! The spot of a work.

ghost use Rattle.std.specs.Prelude.{◌≡◌, ◌∷◌, [], cond, is_some, length, map, IfOk};
ghost use Rattle.std.specs.List.{range_with_len};
ghost use Rattle.object_works.specs.composition.Expanded.{spot as spot_of};
ghost use Rattle.object_works.specs.composition.Expanded as expanded;
ghost use Rattle.object_works.specs.composition.Expansion.{composition_kind as composition_of};
ghost use Rattle.object_works.specs.composition.Scenes as scenes;
ghost use Rattle.object_works.specs.composition.SeenParts.{seen_spot};
ghost use Rattle.object_works.specs.composition.declared.spot.PhaseKind.{PhaseKind};
ghost use Rattle.dsl_tree.specs.Views.{argument_tree};
ghost use Rattle.object_works.specs.expansion_laws.WorkNodes.{node_of};
ghost use Rattle.osc_base.specs.Paths as paths;
ghost use Rattle.object_works.specs.program_texts.SeenTexts.{types_in};
ghost use Rattle.object_works.specs.scene_expansion.SeenWorks.{seen_work};
ghost use Rattle.object_works.specs.type_heads.Members as told;

use crate::kinds::composition_kind;
use crate::members::{do_paths, member_paths};
use dsl_tree::CompNode;
use object_works::{
    Call, Content, Guard, PhaseKind, ProgramTexts, Spot, TypeId, ValueRange, Work, copy_guards,
    copy_range,
};
use osc_base::{Path, Row};
use std::alloc::{AllocError, Global};

/// A spot of an object.
fn object_spot(
    alloc: Global,
    texts: &ProgramTexts<'_>,
    path: &Path,
    of: TypeId,
    guards: &[Guard],
) -> Result<Spot, AllocError>
    ensures { IfOk result (λ s. seen_spot s ≡ spot_of path.now guards.now (scenes.Content.Object (expanded.is_vehicle (types_in texts.now) of))) }
{
    let guards = copy_guards(alloc, guards)?;
    Ok(Spot {
        path: path.copy(alloc)?,
        guards,
        content: Content::Object {
            vehicle: texts.is_vehicle(of),
        },
    })
}

/// A spot of a value.
fn value_spot(
    alloc: Global,
    path: &Path,
    guards: &[Guard],
    range: &ValueRange,
) -> Result<Spot, AllocError>
    ensures { IfOk result (λ s. seen_spot s ≡ spot_of path.now guards.now (scenes.Content.Value range.now)) }
{
    let guards = copy_guards(alloc, guards)?;
    let range = copy_range(alloc, range)?;
    Ok(Spot {
        path: path.copy(alloc)?,
        guards,
        content: Content::Value { range },
    })
}

/// A spot of a phase.
fn phase_spot(
    alloc: Global,
    call: &Call,
    kind: PhaseKind,
    members: Row<Path>,
) -> Result<Spot, AllocError>
    ensures { IfOk result (λ s. seen_spot s ≡ spot_of call.now.path call.now.guards (scenes.Content.Phase kind members)) }
{
    let guards = copy_guards(alloc, call.guards.as_slice())?;
    Ok(Spot {
        path: call.path.copy(alloc)?,
        guards,
        content: Content::Phase { kind, members },
    })
}

/// A spot of a composition.
fn composition_spot(alloc: Global, call: &Call, node: &CompNode) -> Result<Spot, AllocError>
    ensures { IfOk result (λ s. seen_spot s ≡ spot_of call.now.path call.now.guards (scenes.Content.Phase (composition_of node.now.kind (map argument_tree node.now.arguments)) (map (paths.then_member call.now.path) (range_with_len 0 (length node.now.members))))) }
{
    let members = member_paths(alloc, &call.path, node)?;
    let spot = phase_spot(alloc, call, composition_kind(node), members)?;
    Ok(spot)
}

/// A spot of an invocation of a type, which is a scenario if it has a `do`.
fn invocation_spot(
    alloc: Global,
    texts: &ProgramTexts<'_>,
    call: &Call,
    of: TypeId,
) -> Result<Spot, AllocError>
    ensures { IfOk result (λ s. seen_spot s ≡ spot_of call.now.path call.now.guards (scenes.Content.Phase (cond (is_some (told.the_do (types_in texts.now) of)) PhaseKind.Scenario PhaseKind.Action) (cond (is_some (told.the_do (types_in texts.now) of)) (paths.then_do call.now.path ∷ []) []))) }
{
    match texts.the_do(of) {
        Some(_) => {
            let members = do_paths(alloc, &call.path)?;
            let spot = phase_spot(alloc, call, PhaseKind::Scenario, members)?;
            Ok(spot)
        }
        None => {
            let spot = phase_spot(alloc, call, PhaseKind::Action, Row::new(alloc))?;
            Ok(spot)
        }
    }
}

/// The spot of a work: an object with whether it is a vehicle, a value with its range, or a phase with its kind and the
/// paths of its members.
pub fn spot(alloc: Global, texts: &ProgramTexts<'_>, work: &Work<'_>) -> Result<Spot, AllocError>
    ensures { IfOk result (λ s. seen_spot s ≡ (node_of (types_in texts.now) (seen_work work.now)).spot) }
{
    match work {
        Work::Object {
            path,
            of,
            guards,
            ..
        } => object_spot(alloc, texts, path, *of, guards.as_slice()),
        Work::Value {
            path,
            guards,
            range,
        } => value_spot(alloc, path, guards.as_slice(), range),
        Work::Comp { call, node } => composition_spot(alloc, call, node),
        Work::Invoke { call, of, .. } => invocation_spot(alloc, texts, call, *of),
        Work::Wait { call, .. } => phase_spot(alloc, call, PhaseKind::Wait, Row::new(alloc)),
    }
}
