//! Conditions, by the numbers of the slots.

ghost use Rattle.std.specs.Prelude.{◌≡◌};
ghost use Rattle.std.specs.List.{list_all};
ghost use Rattle.osc_base.specs.Comparisons.{same_number};
ghost use Rattle.scene_slots.specs.field_flatten.Points.{is_held as is_held_at, slot_value, stands as stands_at};
ghost use Rattle.scene_slots.specs.SeenSlots.{scene_of};

use crate::numbers::number_in;
use osc_base::Path;
use scene_slots::{Guard, SceneSlots};

/// They are one number.
fn is_same(a: i64, b: i64) -> bool
    ensures { result ≡ same_number a b }
{
    a == b
}

/// A condition holds.
fn is_held(slots: &SceneSlots<'_>, point: &[i64], guard: &Guard) -> bool
    ensures { result ≡ is_held_at (slot_value (scene_of slots.now) point.now) guard.now }
{
    match guard {
        Guard::Choice { phase, member } => {
            is_same(number_in(point, slots.choice(phase)), i64::from(*member))
        }
        Guard::Value { path, value } => is_same(number_in(point, slots.value(path)), *value),
    }
}

/// All conditions hold.
fn are_held(slots: &SceneSlots<'_>, point: &[i64], guards: &[Guard]) -> bool
    ensures { result ≡ list_all (is_held_at (slot_value (scene_of slots.now) point.now)) guards.now }
{
    guards.iter().all(|guard| is_held(slots, point, guard))
}

/// What stands at a path is there.
pub(crate) fn stands(slots: &SceneSlots<'_>, point: &[i64], path: &Path) -> bool
    ensures { result ≡ stands_at (scene_of slots.now) (slot_value (scene_of slots.now) point.now) path.now }
{
    are_held(slots, point, slots.scene().guards(path))
}
