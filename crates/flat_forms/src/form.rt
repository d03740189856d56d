//! The flat form.

ghost use Rattle.std.specs.Prelude.{IfOk};
ghost use Rattle.box_eval.specs.Rules.{IsFlat};
ghost use Rattle.scene_rules.specs.composition.SeenScenes.{seen_scene};
ghost use Rattle.slot_ends.specs.field_flatten.Exactness.{IsExpanded, IsLimited, IsFlatOf};

use crate::rules::rules_of;
use box_eval::Flat;
use slot_ends::{Scene, bounds};
use std::alloc::{AllocError, Global};

/// The flat form of a scene: the ends of each slot, and a rule for each item. Its points are the instances of the scene.
pub fn flatten(alloc: Global, scene: &Scene) -> Result<Flat, AllocError>
    requires expanded { IsExpanded (seen_scene scene.now) }
    requires limited { IsLimited (seen_scene scene.now) }
    ensures form { IfOk result (λ f. IsFlatOf (seen_scene scene.now) f) }
    ensures flat { IfOk result (λ f. IsFlat f) }
{
    let bounds = bounds(alloc, scene)?;
    let rules = rules_of(alloc, scene)?;
    Ok(Flat { bounds, rules })
}
