//! The lists of works that are laid out.

ghost use Rattle.std.specs.Prelude.{◌≡◌, map, IfOk};
ghost use Rattle.program_calls.specs.composition.Expanded.{occurrence_of};
ghost use Rattle.program_calls.specs.composition.SeenParts.{seen_binding, seen_modifier, seen_occurrence, seen_spot};
ghost use Rattle.program_calls.specs.composition.SeenScenes.{seen_scene};
ghost use Rattle.scene_texts.specs.expansion_laws.Laid.{bindings_laid, givens_laid, modifiers_laid, spots_laid};
ghost use Rattle.scene_expansion.specs.Walks.{modifier_at, nodes_done};

use crate::layout::Layout;
use crate::work::Work;
use osc_base::Row;
use program_calls::{Binding, ModifierSpot, Occurrence, Scene, Spot};
use std::alloc::{AllocError, Global};

/// The spots of works.
pub(crate) fn spots_of<'p, L: Layout<'p>>(
    alloc: Global,
    layout: &L,
    works: &[Work<'p>],
) -> Result<Row<Spot>, AllocError>
    ensures { IfOk result (λ ss. map seen_spot ss ≡ spots_laid (nodes_done (L.types layout.now) works.now)) }
{
    let mut spots = Row::new(alloc);
    for work in works {
        spots.push(layout.spot(alloc, work)?)?;
    }
    Ok(spots)
}

/// The bindings that works make.
pub(crate) fn bindings_of<'p, L: Layout<'p>>(
    alloc: Global,
    layout: &L,
    works: &[Work<'p>],
) -> Result<Row<Binding>, AllocError>
    ensures { IfOk result (λ bs. map seen_binding bs ≡ bindings_laid (nodes_done (L.types layout.now) works.now)) }
{
    let mut bindings = Row::new(alloc);
    for work in works {
        layout.push_bindings(alloc, &mut bindings, work)?;
    }
    Ok(bindings)
}

/// The constraints of works, at their homes in the scene.
pub(crate) fn occurrences_of<'p, L: Layout<'p>>(
    alloc: Global,
    layout: &L,
    scene: &Scene,
    works: &[Work<'p>],
) -> Result<Vec<Occurrence>, AllocError>
    ensures { IfOk result (λ os. map seen_occurrence os.items ≡ map (occurrence_of (seen_scene scene.now).bindings) (givens_laid (nodes_done (L.types layout.now) works.now))) }
{
    let mut occurrences = Vec::new(alloc);
    for work in works {
        layout.push_occurrences(alloc, scene, &mut occurrences, work)?;
    }
    Ok(occurrences)
}

/// The modifiers of works, at their homes in the scene.
pub(crate) fn modifiers_of<'p, L: Layout<'p>>(
    alloc: Global,
    layout: &L,
    scene: &Scene,
    works: &[Work<'p>],
) -> Result<Vec<ModifierSpot>, AllocError>
    ensures { IfOk result (λ ms. map seen_modifier ms.items ≡ map (modifier_at (seen_scene scene.now).bindings) (modifiers_laid (nodes_done (L.types layout.now) works.now))) }
{
    let mut modifiers = Vec::new(alloc);
    for work in works {
        layout.push_modifiers(alloc, scene, &mut modifiers, work)?;
    }
    Ok(modifiers)
}
