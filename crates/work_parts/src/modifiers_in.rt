//! The modifiers among the parts of a `with:`.

ghost use Rattle.std.specs.Prelude.{◌≡◌, ◌++◌, None, Some, flat_map, map, OnOk};
ghost use Rattle.object_works.specs.composition.Expansion.{here_in, part_modifier};
ghost use Rattle.object_works.specs.composition.SeenParts.{seen_modifier};
ghost use Rattle.object_works.specs.composition.SeenScenes.{seen_scene};
ghost use Rattle.dsl_tree.specs.Views.{modifier_tree, part_tree};
ghost use Rattle.scene_places.specs.expansion_laws.WorkNodes.{node_of};
ghost use Rattle.expr_nodes.specs.Scope as scopes;
ghost use Rattle.expr_nodes.specs.SeenNames.{seen_scope};
ghost use Rattle.object_works.specs.program_texts.SeenTexts.{types_in};
ghost use Rattle.object_works.specs.scene_expansion.SeenWorks.{seen_call, seen_work};
ghost use Rattle.object_works.specs.scene_expansion.Walks.{modifier_at};
ghost use Rattle.scene_places.specs.Placed.{place_in};
ghost use Rattle.work_parts.specs.Modifiers.{actor_home, modifier_among, part_there, parts_there};

use crate::modifiers::Within;
use dsl_tree::{InvokeNode, InvokePart, ModifierNode};
use object_works::{Call, ModifierSpot, ProgramTexts, TypeId, Work, call_scope, modifier_form};
use scene_places::{Places, Scene};
use std::alloc::{AllocError, Global};

/// Puts a modifier at the end, if it has a form.
fn push_modifier(
    alloc: Global,
    modifiers: &mut Vec<ModifierSpot>,
    within: &Within<'_, '_>,
    node: &ModifierNode,
) -> Result<(), AllocError>
    ensures { OnOk result (map seen_modifier modifiers.new.items ≡ map seen_modifier modifiers.old.items ++ modifier_among (place_in within.now.places) (actor_home (seen_scene within.now.places.scene.now).bindings (seen_call within.now.call.now)) within.now.types.now.table (seen_scope within.now.scope.now) (seen_call within.now.call.now) (modifier_tree node.now)) }
{
    let Some(form) = modifier_form(node) else {
        return Ok(());
    };
    modifiers.push(within.modifier(alloc, node, &form)?)?;
    Ok(())
}

/// Puts the modifier that a part is at the end, if it is one.
fn push_part(
    alloc: Global,
    modifiers: &mut Vec<ModifierSpot>,
    within: &Within<'_, '_>,
    part: &InvokePart,
) -> Result<(), AllocError>
    ensures { OnOk result (map seen_modifier modifiers.new.items ≡ map seen_modifier modifiers.old.items ++ part_there (place_in within.now.places) (actor_home (seen_scene within.now.places.scene.now).bindings (seen_call within.now.call.now)) within.now.types.now.table (seen_scope within.now.scope.now) (seen_call within.now.call.now) (part_tree part.now)) }
{
    match part {
        InvokePart::Rule(_) => Ok(()),
        InvokePart::Modifier(node) => push_modifier(alloc, modifiers, within, node),
    }
}

/// Puts the modifiers among parts at the end.
fn push_parts(
    alloc: Global,
    modifiers: &mut Vec<ModifierSpot>,
    within: &Within<'_, '_>,
    parts: &[InvokePart],
) -> Result<(), AllocError>
    ensures { OnOk result (map seen_modifier modifiers.new.items ≡ map seen_modifier modifiers.old.items ++ parts_there (place_in within.now.places) (actor_home (seen_scene within.now.places.scene.now).bindings (seen_call within.now.call.now)) within.now.types.now.table (seen_scope within.now.scope.now) (seen_call within.now.call.now) (map part_tree parts.now)) }
{
    for part in parts {
        push_part(alloc, modifiers, within, part)?;
    }
    Ok(())
}

/// Puts the modifiers of an invocation of a type at the end.
fn push_invocation<'x>(
    alloc: Global,
    texts: &'x ProgramTexts<'_>,
    scene: &Scene,
    modifiers: &mut Vec<ModifierSpot>,
    call: &'x Call,
    node: &InvokeNode,
    of: TypeId,
) -> Result<(), AllocError>
    ensures { OnOk result (map seen_modifier modifiers.new.items ≡ map seen_modifier modifiers.old.items ++ map (modifier_at (seen_scene scene.now).bindings) (flat_map (part_modifier (types_in texts.now) (seen_call call.now) (here_in (types_in texts.now) (seen_call call.now) (Some (scopes.It.Of of None)))) (map part_tree node.now.parts))) }
{
    if node.parts.as_slice().is_empty() {
        return Ok(());
    }
    let labels = texts.labels(alloc, call.holder)?;
    let scope = call_scope(labels.table(), call, of);
    let places = Places {
        object: &call.object,
        it: &call.path,
        scene,
    };
    let within = Within {
        types: texts.types(),
        call,
        scope: &scope,
        places,
    };
    push_parts(alloc, modifiers, &within, node.parts.as_slice())
}

/// Puts the modifiers of a work at the end, with their paths at their homes in the scene. Only an invocation has any.
pub fn push_modifiers(
    alloc: Global,
    texts: &ProgramTexts<'_>,
    scene: &Scene,
    modifiers: &mut Vec<ModifierSpot>,
    work: &Work<'_>,
) -> Result<(), AllocError>
    ensures { OnOk result (map seen_modifier modifiers.new.items ≡ map seen_modifier modifiers.old.items ++ map (modifier_at (seen_scene scene.now).bindings) (node_of (types_in texts.now) (seen_work work.now)).modifiers) }
{
    match work {
        Work::Invoke { call, node, of, .. } => {
            push_invocation(alloc, texts, scene, modifiers, call, node, *of)
        }
        Work::Object { .. } | Work::Value { .. } | Work::Comp { .. } | Work::Wait { .. } => Ok(()),
    }
}
