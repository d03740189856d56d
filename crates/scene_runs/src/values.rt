//! What fields hold.

ghost use Rattle.std.specs.Prelude.{◌≡◌, ◌++◌, [], flat_map, slice_get, unsigned_abs, unwrap_or, IfOk, OnOk};
ghost use Rattle.scene_slots.specs.field_flatten.Points.{held_of as held_by, slot_value};
ghost use Rattle.scene_runs.specs.Entries.{value_entry, value_named};
ghost use Rattle.scene_slots.specs.SeenSlots.{scene_of};

use crate::conditions::stands;
use crate::numbers::number_in;
use osc_base::{Row, Text};
use scene_slots::{Held, SceneSlots, Value, ValueRange, ValueSpot};
use std::alloc::{AllocError, Global};

/// The text of that number. Past the last it is empty.
fn text_of(alloc: Global, texts: &[Text], number: i64) -> Result<Text, AllocError>
    ensures { IfOk result (λ t. t ≡ unwrap_or (slice_get texts.now (unsigned_abs number)) []) }
{
    match texts.get(number.unsigned_abs() as usize) {
        Some(text) => Text::copy(alloc, text.as_str()),
        None => Text::copy(alloc, ""),
    }
}

/// A number as what a field holds: the text of that number for a field of type `string`.
fn held_of(
    alloc: Global,
    texts: &[Text],
    range: &ValueRange,
    number: i64,
) -> Result<Held, AllocError>
    ensures { IfOk result (λ h. h ≡ held_by texts.now range.now number) }
{
    match range {
        ValueRange::Between { .. } => Ok(Held::Number(number)),
        ValueRange::Among { .. } => Ok(Held::Number(number)),
        ValueRange::Chars => Ok(Held::Chars(text_of(alloc, texts, number)?)),
    }
}

/// What a field holds.
fn value_of(
    alloc: Global,
    slots: &SceneSlots<'_>,
    point: &[i64],
    spot: &ValueSpot,
) -> Result<Value, AllocError>
    ensures { IfOk result (λ v. v ≡ value_named (scene_of slots.now) (slot_value (scene_of slots.now) point.now) spot.now) }
{
    let number = number_in(point, slots.value(&spot.path));
    let held = held_of(alloc, slots.scene().texts(), &spot.range, number)?;
    let path = spot.path.copy(alloc)?;
    Ok(Value { path, held })
}

/// Puts what a field holds at the end, if the field is there.
fn push_value(
    alloc: Global,
    slots: &SceneSlots<'_>,
    point: &[i64],
    spot: &ValueSpot,
    values: &mut Row<Value>,
) -> Result<(), AllocError>
    ensures { OnOk result (values.new ≡ values.old ++ value_entry (scene_of slots.now) (slot_value (scene_of slots.now) point.now) spot.now) }
{
    if stands(slots, point, &spot.path) {
        values.push(value_of(alloc, slots, point, spot)?)
    } else {
        Ok(())
    }
}

/// What those fields hold that are there.
pub(crate) fn values_of(
    alloc: Global,
    slots: &SceneSlots<'_>,
    point: &[i64],
    spots: &[ValueSpot],
) -> Result<Row<Value>, AllocError>
    ensures { IfOk result (λ vs. vs ≡ flat_map (value_entry (scene_of slots.now) (slot_value (scene_of slots.now) point.now)) spots.now) }
{
    let mut values = Row::new(alloc);
    'spots: for spot in spots {
        push_value(alloc, slots, point, spot, &mut values)?;
    }
    Ok(values)
}
