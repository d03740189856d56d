//! The chosen members of `one_of`s.

ghost use Rattle.std.specs.Prelude.{◌≡◌, ◌≤ℤ◌, ◌++◌, pos, true, flat_map, IfOk, OnOk};
ghost use Rattle.std.specs.List.{list_all};
ghost use Rattle.osc_base.specs.declared.listing.SlotName.{SlotName};
ghost use Rattle.scene_slots.specs.field_flatten.Points.{choice_of as choice_by, slot_value};
ghost use Rattle.scene_runs.specs.Entries.{choice_entry, is_chosen};
ghost use Rattle.scene_slots.specs.SeenSlots.{scene_of};

use crate::conditions::stands;
use crate::numbers::{counted, number_in};
use osc_base::Row;
use scene_slots::{Choice, ChoiceSpot, SceneSlots};
use std::alloc::{AllocError, Global};

/// The chosen member of a `one_of`.
fn choice_of(
    alloc: Global,
    slots: &SceneSlots<'_>,
    point: &[i64],
    spot: &ChoiceSpot,
) -> Result<Choice, AllocError>
    requires { is_chosen (slot_value (scene_of slots.now) point.now) spot.now ≡ true }
    ensures { IfOk result (λ c. c ≡ choice_by (slot_value (scene_of slots.now) point.now) spot.now.path) }
{
    let number = number_in(point, slots.choice(&spot.path));
    let member = counted(number, spot.members);
    let path = spot.path.copy(alloc)?;
    Ok(Choice { path, member })
}

/// Puts the chosen member of a `one_of` at the end, if the `one_of` is there.
fn push_choice(
    alloc: Global,
    slots: &SceneSlots<'_>,
    point: &[i64],
    spot: &ChoiceSpot,
    choices: &mut Row<Choice>,
) -> Result<(), AllocError>
    requires { is_chosen (slot_value (scene_of slots.now) point.now) spot.now ≡ true }
    ensures { OnOk result (choices.new ≡ choices.old ++ choice_entry (scene_of slots.now) (slot_value (scene_of slots.now) point.now) spot.now) }
{
    if stands(slots, point, &spot.path) {
        choices.push(choice_of(alloc, slots, point, spot)?)
    } else {
        Ok(())
    }
}

/// The chosen members of those `one_of`s that are there.
pub(crate) fn choices_of(
    alloc: Global,
    slots: &SceneSlots<'_>,
    point: &[i64],
    spots: &[ChoiceSpot],
) -> Result<Row<Choice>, AllocError>
    requires { list_all (is_chosen (slot_value (scene_of slots.now) point.now)) spots.now ≡ true }
    ensures { IfOk result (λ cs. cs ≡ flat_map (choice_entry (scene_of slots.now) (slot_value (scene_of slots.now) point.now)) spots.now) }
{
    let mut choices = Row::new(alloc);
    'spots: for spot in spots {
        push_choice(alloc, slots, point, spot, &mut choices)?;
    }
    Ok(choices)
}
