//! The scene of the works that are laid out.

ghost use Rattle.std.specs.Prelude.{◌≡◌, filter, map, IfOk, IfSome, None, true};
ghost use Rattle.program_calls.specs.composition.Expanded.{can_apply, with_readable};
ghost use Rattle.program_calls.specs.composition.Expansion.{expansion};
ghost use Rattle.program_calls.specs.composition.SceneFaults.{is_too_large};
ghost use Rattle.program_calls.specs.composition.SeenParts.{seen_modifier};
ghost use Rattle.program_calls.specs.composition.SeenScenes.{seen_scene};
ghost use Rattle.program_calls.specs.composition.declared.setting.Setting.{Setting};
ghost use Rattle.scene_texts.specs.expansion_laws.Laid.{modifiers_laid, scene_laid};
ghost use Rattle.scene_texts.specs.expansion_laws.Nodes.{closed_of, nodes_of};
ghost use Rattle.scene_expansion.specs.Walks.{bare_scene, modifier_at, nodes_done};

use crate::laid::{bindings_of, modifiers_of, occurrences_of, spots_of};
use crate::layout::{Layout, WorkLayout};
use crate::walk::{laid_after, laid_before};
use crate::work::Work;
use osc_base::Row;
use program_calls::{ModifierSpot, Scene, Setting, TypeId};
use scene_reads::{readable_modifiers, readable_occurrences};
use std::alloc::{AllocError, Global};

/// All works of a scenario, each before the works in it. `None` if there are too many for a scene.
pub(crate) fn all_before<'p, L: WorkLayout<'p>>(
    alloc: Global,
    layout: &L,
    of: TypeId,
) -> Result<Option<Vec<Work<'p>>>, AllocError>
    ensures all { IfOk result (λ laid. IfSome laid (λ ws. nodes_done (L.types layout.now) ws.items ≡ nodes_of (L.types layout.now) (expansion (L.types layout.now) of))) }
    ensures many { IfOk result (λ laid. laid ≡ None → (s : Setting) → is_too_large (L.types layout.now) of s ≡ true) }
{
    let root = layout.root(alloc, of)?;
    let parts = layout.root_parts(alloc, of)?;
    laid_before(alloc, layout, root, parts)
}

/// All works of a scenario, each after the works in it. `None` if there are too many for a scene.
pub(crate) fn all_after<'p, L: WorkLayout<'p>>(
    alloc: Global,
    layout: &L,
    of: TypeId,
) -> Result<Option<Vec<Work<'p>>>, AllocError>
    ensures all { IfOk result (λ laid. IfSome laid (λ ws. nodes_done (L.types layout.now) ws.items ≡ closed_of (L.types layout.now) (expansion (L.types layout.now) of))) }
    ensures many { IfOk result (λ laid. laid ≡ None → (s : Setting) → is_too_large (L.types layout.now) of s ≡ true) }
{
    let root = layout.root(alloc, of)?;
    let parts = layout.root_parts(alloc, of)?;
    laid_after(alloc, layout, root, parts)
}

/// A scene with the spots and bindings of works, without constraints and modifiers.
fn bare<'p, L: Layout<'p>>(
    alloc: Global,
    layout: &L,
    setting: Setting,
    works: &[Work<'p>],
) -> Result<Scene, AllocError>
    ensures { IfOk result (λ s. seen_scene s ≡ bare_scene setting (L.types layout.now).table.texts (nodes_done (L.types layout.now) works.now)) }
{
    let spots = spots_of(alloc, layout, works)?;
    let bindings = bindings_of(alloc, layout, works)?;
    let texts = layout.texts(alloc)?;
    let (occurrences, modifiers) = (Row::new(alloc), Row::new(alloc));
    Scene::new(
        alloc,
        spots,
        bindings,
        occurrences,
        modifiers,
        setting,
        texts,
    )
}

/// The modifiers of works that can be there, at their homes in the scene.
fn applied<'p, L: Layout<'p>>(
    alloc: Global,
    layout: &L,
    scene: &Scene,
    works: &[Work<'p>],
) -> Result<Row<ModifierSpot>, AllocError>
    ensures { IfOk result (λ ms. map seen_modifier ms ≡ filter (can_apply (seen_scene scene.now)) (map (modifier_at (seen_scene scene.now).bindings) (modifiers_laid (nodes_done (L.types layout.now) works.now)))) }
{
    let modifiers = modifiers_of(alloc, layout, scene, works)?;
    let applied = readable_modifiers(alloc, scene, modifiers)?;
    Ok(applied)
}

/// The scene of works, which stand in one list before the works in them, and in the other after them.
pub(crate) fn whole<'p, L: Layout<'p>>(
    alloc: Global,
    layout: &L,
    setting: Setting,
    before: &[Work<'p>],
    after: &[Work<'p>],
) -> Result<Scene, AllocError>
    ensures { IfOk result (λ s. seen_scene s ≡ with_readable (scene_laid setting (L.types layout.now).table.texts (nodes_done (L.types layout.now) before.now) (nodes_done (L.types layout.now) after.now))) }
{
    let scene = bare(alloc, layout, setting, before)?;
    let occurrences = occurrences_of(alloc, layout, &scene, after)?;
    let modifiers = applied(alloc, layout, &scene, before)?;
    let occurrences = readable_occurrences(&scene, occurrences);
    Ok(scene.with_asked(occurrences, modifiers))
}
