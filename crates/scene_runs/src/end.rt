//! The tick at which a run ends.

ghost use Rattle.std.specs.Prelude.{◌≡◌, ◌≤◌, ◌≤ℤ◌, pos, unsigned_abs, IfSome};
ghost use Rattle.std.specs.Option.{option_map_or};
ghost use Rattle.box_eval.specs.Box.{IsPointOf, value_of};
ghost use Rattle.scene_slots.specs.field_flatten.Ends.{bounds};
ghost use Rattle.scene_slots.specs.field_flatten.Points.{end_named, slot_value};
ghost use Rattle.scene_slots.specs.SeenSlots.{scene_of};

use crate::numbers::{counted, number_in};
use scene_slots::SceneSlots;

/// The number of a slot from 0 to `most`, or 0 without a slot.
fn end_in(point: &[i64], slot: Option<u32>, most: u32) -> u32
    requires low { IfSome slot (λ s. pos 0 ≤ℤ value_of point.now s) }
    requires high { IfSome slot (λ s. value_of point.now s ≤ℤ pos most) }
    ensures is { result ≡ option_map_or (λ s. unsigned_abs (value_of point.now s)) slot 0 }
    ensures within { result ≤ most }
{
    match slot {
        Some(slot) => counted(number_in(point, slot), most),
        None => 0,
    }
}

/// The tick at which the run ends: that at which the scenario's `do` ends, or 0 without one.
pub(crate) fn end_of(slots: &SceneSlots<'_>, point: &[i64]) -> u32
    requires { IsPointOf (bounds (scene_of slots.now)) point.now }
    ensures is { result ≡ end_named (scene_of slots.now) (slot_value (scene_of slots.now) point.now) }
    ensures within { result ≤ (scene_of slots.now).setting.ticks }
{
    end_in(point, slots.whole_end(), slots.scene().setting().ticks)
}
