//! The run of a point.

ghost use Rattle.std.specs.Prelude.{◌≡◌, IfOk};
ghost use Rattle.box_eval.specs.Box.{IsPointOf};
ghost use Rattle.scene_slots.specs.composition.SeenScenes.{seen_scene};
ghost use Rattle.scene_slots.specs.field_flatten.Ends.{bounds};
ghost use Rattle.scene_slots.specs.field_flatten.Exactness.{IsExpanded};
ghost use Rattle.scene_slots.specs.field_flatten.Points.{run_of as run_by};
ghost use Rattle.scene_slots.specs.SeenSlots.{scene_of};

use crate::choices::choices_of;
use crate::end::end_of;
use crate::phases::spans_of;
use crate::traces::traces_of;
use crate::values::values_of;
use box_eval::Point;
use scene_slots::{Run, Scene, SceneSlots};
use std::alloc::{AllocError, Global};

/// The run of a point of the scene that these slots are of.
fn run_in(alloc: Global, slots: &SceneSlots<'_>, point: &[i64]) -> Result<Run, AllocError>
    requires expanded { IsExpanded (scene_of slots.now) }
    requires inside { IsPointOf (bounds (scene_of slots.now)) point.now }
    ensures { IfOk result (λ run. run ≡ run_by (scene_of slots.now) point.now) }
{
    let scene = slots.scene();
    let end = end_of(slots, point);
    let choices = choices_of(alloc, slots, point, scene.choices())?;
    let phases = spans_of(alloc, slots, point, scene.phases())?;
    let traces = traces_of(alloc, slots, point, end, scene.vehicles())?;
    let values = values_of(alloc, slots, point, scene.values())?;
    Ok(Run {
        choices,
        end,
        phases,
        tick: scene.setting().tick,
        traces,
        values,
    })
}

/// The run of a point of a scene's flat form: everything that is there by the numbers of the slots, and what they say
/// of it. The point is in the box of the scene's slots.
pub fn run_of(alloc: Global, scene: &Scene, point: &Point) -> Result<Run, AllocError>
    requires expanded { IsExpanded (seen_scene scene.now) }
    requires inside { IsPointOf (bounds (seen_scene scene.now)) point.now.values }
    ensures { IfOk result (λ run. run ≡ run_by (seen_scene scene.now) point.now.values) }
{
    let slots = SceneSlots::of(alloc, scene)?;
    run_in(alloc, &slots, point.values.as_slice())
}
