//! The constraints of a work.

ghost use Rattle.std.specs.Prelude.{◌≡◌, ◌++◌, ◌∷◌, [], None, codes, map, option_to_list, OnOk};
ghost use Rattle.text_constraints.specs.composition.Calls as Calls;
ghost use Rattle.text_constraints.specs.composition.Expanded.{occurrence_of};
ghost use Rattle.text_constraints.specs.composition.Expansion.{argument_named, given_duration};
ghost use Rattle.text_constraints.specs.composition.SeenParts.{seen_occurrence};
ghost use Rattle.text_constraints.specs.composition.SeenScenes.{seen_scene};
ghost use Rattle.dsl_tree.specs.Views.{argument_tree, expr_tree, part_tree};
ghost use Rattle.scene_expansion.specs.expansion_laws.WorkNodes.{node_of};
ghost use Rattle.expr_nodes.specs.SeenNames.{seen_scope};
ghost use Rattle.scene_expansion.specs.program_calls.PlacedPhases.{seen_turn};
ghost use Rattle.scene_expansion.specs.program_calls.SeenLabels.{do_labels, seen_labels};
ghost use Rattle.text_constraints.specs.program_texts.SeenTexts.{types_in};
ghost use Rattle.expr_nodes.specs.type_heads.Types.{Types};
ghost use Rattle.scene_expansion.specs.SeenWorks.{seen_call, seen_work};
ghost use Rattle.work_constraints.specs.CallTexts.{invoke_kept, phase_holder};
ghost use Rattle.text_constraints.specs.Kept.{seen_owner};

use crate::arguments::push_invocation;
use crate::required::push_duration;
use dsl_tree::{CompNode, Expr, InvokeNode};
use expr_nodes::{LabelTable, Scope, TypeId};
use scene_expansion::{Call, Scene, Work, argument_named, scope_at};
use std::alloc::{AllocError, Global};
use text_constraints::{Occurrence, Owner, Places, ProgramTexts, Standing, TextSite, push_own};

/// The scope of the texts of a phase, in which `it` is nothing. The labels are those of the `do` in which it stands.
fn call_scope<'c>(labels: &'c LabelTable, call: &'c Call) -> Scope<'c>
    ensures { (ts : Types) → seen_labels labels.entry.now ≡ do_labels ts call.entry.now.holder → seen_scope result ≡ Calls.scope_at ts call.entry.now.holder None (map seen_turn call.entry.now.way) }
{
    scope_at(call.holder, None, labels, call.way.as_slice())
}

/// A phase, whose constraints are under no conditions of their own.
fn owner_of(call: &Call) -> Owner<'_, '_>
    ensures { seen_owner result ≡ phase_holder call.now.path }
{
    Owner {
        holder: &call.path,
        under: &[],
    }
}

/// Puts a stated duration of a phase at the end.
fn push_stated<'x>(
    alloc: Global,
    texts: &'x ProgramTexts<'_>,
    scene: &Scene,
    into: &mut Vec<Occurrence>,
    call: &'x Call,
    value: &Expr,
) -> Result<(), AllocError>
    ensures { OnOk result (map seen_occurrence into.new.items ≡ map seen_occurrence into.old.items ++ occurrence_of (seen_scene scene.now).bindings (given_duration (types_in texts.now) (seen_call call.now) (expr_tree value.now)) ∷ []) }
{
    let labels = texts.labels(alloc, call.holder)?;
    let scope = call_scope(labels.table(), call);
    let places = Places {
        object: &call.object,
        it: &call.path,
        scene,
    };
    let text = TextSite {
        places,
        scope: &scope,
    };
    let owner = owner_of(call);
    push_duration(alloc, texts.types(), &text, &owner, into, value)
}

/// Puts the stated duration of a composition at the end, if it states one.
fn push_comp(
    alloc: Global,
    texts: &ProgramTexts<'_>,
    scene: &Scene,
    into: &mut Vec<Occurrence>,
    call: &Call,
    node: &CompNode,
) -> Result<(), AllocError>
    ensures { OnOk result (map seen_occurrence into.new.items ≡ map seen_occurrence into.old.items ++ map (occurrence_of (seen_scene scene.now).bindings) (map (given_duration (types_in texts.now) (seen_call call.now)) (option_to_list (argument_named (codes "duration") (map argument_tree node.now.arguments))))) }
{
    match argument_named(node.arguments.as_slice(), "duration") {
        Some(value) => push_stated(alloc, texts, scene, into, call, value),
        None => Ok(()),
    }
}

/// Puts what an invocation of a type gives at the end.
fn push_invoke(
    alloc: Global,
    texts: &ProgramTexts<'_>,
    scene: &Scene,
    into: &mut Vec<Occurrence>,
    call: &Call,
    node: &InvokeNode,
    of: TypeId,
) -> Result<(), AllocError>
    ensures { OnOk result (map seen_occurrence into.new.items ≡ map seen_occurrence into.old.items ++ invoke_kept (types_in texts.now) (seen_scene scene.now).bindings (seen_call call.now) of (map argument_tree node.now.arguments) (map part_tree node.now.parts)) }
{
    let labels = texts.labels(alloc, call.holder)?;
    let scope = call_scope(labels.table(), call);
    let fields = texts.fields_of(of);
    let places = Places {
        object: &call.object,
        it: &call.path,
        scene,
    };
    let owner = owner_of(call);
    push_invocation(
        alloc,
        texts.types(),
        &places,
        &owner,
        &scope,
        of,
        &fields,
        into,
        node,
    )
}

/// Puts what an invocation of a type gives at the end. One without arguments and parts gives nothing.
fn push_invoked(
    alloc: Global,
    texts: &ProgramTexts<'_>,
    scene: &Scene,
    into: &mut Vec<Occurrence>,
    call: &Call,
    node: &InvokeNode,
    of: TypeId,
) -> Result<(), AllocError>
    ensures { OnOk result (map seen_occurrence into.new.items ≡ map seen_occurrence into.old.items ++ invoke_kept (types_in texts.now) (seen_scene scene.now).bindings (seen_call call.now) of (map argument_tree node.now.arguments) (map part_tree node.now.parts)) }
{
    match (node.arguments.as_slice(), node.parts.as_slice()) {
        ([], []) => Ok(()),
        ([_argument, ..], _) => push_invoke(alloc, texts, scene, into, call, node, of),
        ([], [_part, ..]) => push_invoke(alloc, texts, scene, into, call, node, of),
    }
}

/// Puts the constraints of a work at the end, with their paths at their homes in the scene.
pub fn push_occurrences(
    alloc: Global,
    texts: &ProgramTexts<'_>,
    scene: &Scene,
    occurrences: &mut Vec<Occurrence>,
    work: &Work<'_>,
) -> Result<(), AllocError>
    ensures { OnOk result (map seen_occurrence occurrences.new.items ≡ map seen_occurrence occurrences.old.items ++ map (occurrence_of (seen_scene scene.now).bindings) (node_of (types_in texts.now) (seen_work work.now)).given) }
{
    match work {
        Work::Object {
            steps,
            path,
            of,
            ..
        } => {
            let standing = Standing {
                object: path,
                of: *of,
                scene,
            };
            push_own(alloc, texts, &standing, *steps, occurrences)
        }
        Work::Value { .. } => Ok(()),
        Work::Comp { call, node } => push_comp(alloc, texts, scene, occurrences, call, node),
        Work::Invoke { call, node, of, .. } => {
            push_invoked(alloc, texts, scene, occurrences, call, node, *of)
        }
        Work::Wait { call, node } => {
            push_stated(alloc, texts, scene, occurrences, call, &node.elapsed)
        }
    }
}
