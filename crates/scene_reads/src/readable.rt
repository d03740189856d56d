//! Which constraints and modifiers can be there.

ghost use Rattle.std.specs.Prelude.{◌≡◌, filter, map, option_to_list, IfOk};
ghost use Rattle.std.specs.List.{list_all};
ghost use Rattle.expr_nodes.specs.Seen.{seen_part};
ghost use Rattle.composition.specs.Expanded.{can_apply as applies, can_be_asked as asked};
ghost use Rattle.composition.specs.SeenParts.{seen_modifier, seen_occurrence};
ghost use Rattle.composition.specs.SeenScenes.{seen_scene};
ghost use Rattle.composition.specs.There.{read_by, removed};
ghost use Rattle.scene_reads.specs.Readable.{has};

use crate::driven::Driven;
use crate::reads::{has_all, has_path};
use composition::{ModifierSpot, Occurrence, Scene};
use expr_nodes::Typed;
use osc_base::{Mark, Path, Row, Strength};
use std::alloc::{AllocError, Global};

/// Whether the scene has all that an expression reads, if there is one.
fn has_part(scene: &Scene, typed: &Option<Typed>) -> bool
    ensures { result ≡ list_all (has scene.now) (read_by (seen_part typed.now)) }
{
    match typed {
        Some(typed) => has_all(scene, typed),
        None => true,
    }
}

/// Whether the scene has the target of a `remove_default`.
fn has_removed(scene: &Scene, mark: &Mark) -> bool
    ensures { result ≡ list_all (has scene.now) (removed mark.now) }
{
    match mark.strength {
        Strength::Hard | Strength::Default => true,
        Strength::Remove => has_target(scene, &mark.target),
    }
}

/// Whether the scene has a target, if there is one.
fn has_target(scene: &Scene, target: &Option<Path>) -> bool
    ensures { result ≡ list_all (has scene.now) (option_to_list target.now) }
{
    match target {
        Some(target) => has_path(scene, target),
        None => true,
    }
}

/// Whether the scene has all that a constraint reads.
#[tactic(auto, unfolding(crate::specs::Readable::has))]
fn can_be_asked(scene: &Scene, occurrence: &Occurrence) -> bool
    ensures { result ≡ asked (seen_scene scene.now) (seen_occurrence occurrence.now) }
{
    has_part(scene, &occurrence.typed) && has_removed(scene, &occurrence.mark)
}

/// Whether the scene has the vehicles of a modifier, and all that its range reads.
#[tactic(auto, unfolding(crate::specs::Readable::has))]
fn can_apply(driven: &Driven<'_>, modifier: &ModifierSpot) -> bool
    ensures { result ≡ applies (seen_scene driven.now.scene.now) (seen_modifier modifier.now) }
{
    driven.has_vehicles(modifier)
        && (has_part(driven.scene, &modifier.low) && has_part(driven.scene, &modifier.high))
}

/// The constraints that can be there.
pub fn readable_occurrences(scene: &Scene, occurrences: Vec<Occurrence>) -> Row<Occurrence>
    ensures { map seen_occurrence result ≡ filter (asked (seen_scene scene.now)) (map seen_occurrence occurrences.items) }
{
    let mut kept = occurrences;
    kept.retain(|occurrence| can_be_asked(scene, occurrence));
    Row::of(kept)
}

/// The modifiers that can be there.
pub fn readable_modifiers(
    alloc: Global,
    scene: &Scene,
    modifiers: Vec<ModifierSpot>,
) -> Result<Row<ModifierSpot>, AllocError>
    ensures { IfOk result (λ ms. map seen_modifier ms ≡ filter (applies (seen_scene scene.now)) (map seen_modifier modifiers.items)) }
{
    let driven = Driven::of(alloc, scene)?;
    Ok(applied(&driven, modifiers))
}

/// The modifiers whose vehicles are there, and all that their ranges read.
fn applied(driven: &Driven<'_>, modifiers: Vec<ModifierSpot>) -> Row<ModifierSpot>
    ensures { map seen_modifier result ≡ filter (applies (seen_scene driven.now.scene.now)) (map seen_modifier modifiers.items) }
{
    let mut kept = modifiers;
    kept.retain(|modifier| can_apply(driven, modifier));
    Row::of(kept)
}
