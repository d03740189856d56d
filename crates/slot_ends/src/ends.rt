//! The least and the greatest value of each slot.

ghost use Rattle.std.specs.Prelude.{◌≡◌, ◌≤◌, ◌-◌, map, fold, option_copied, pos, IfOk};
ghost use Rattle.std.specs.Int.{int_min, int_max};
ghost use Rattle.std.specs.Option.{option_map_or};
ghost use Rattle.scene_slots.specs.type_heads.Bounds.{least_of, greatest_of};
ghost use Rattle.scene_slots.specs.composition.declared.spot.ChoiceSpot.{ChoiceSpot};
ghost use Rattle.scene_slots.specs.composition.declared.spot.ValueSpot.{ValueSpot};
ghost use Rattle.scene_slots.specs.composition.SeenScenes.{seen_scene};
ghost use Rattle.scene_slots.specs.box_eval.Box.{pair};
ghost use Rattle.scene_slots.specs.field_flatten.Ends.{ends_of as ends_in, range_ends as range_by, tick_ends as ticks_by, no_ends, bounds as all_ends};

use box_eval::{Bounds, Pair};
use osc_base::{Row, SlotName, Text};
use scene_slots::{ChoiceSpot, Scene, Setting, ValueRange, ValueSpot, slot_names};
use std::alloc::{AllocError, Global};

/// The ends of a slot that isn't there.
const NO_ENDS: Pair = Pair { low: 0, high: 0 };

/// The greatest speed, in millimetres a second.
const TOP_SPEED: i64 = 1_000_000_000;

/// Micrometres in a metre.
const MICROMETRES: i64 = 1_000_000;

/// The least and the greatest value of the slot of that name. Both belong to it. A slot that the scene hasn't holds 0.
pub fn ends_of(scene: &Scene, name: &SlotName) -> Pair
    ensures { result ≡ ends_in (seen_scene scene.now) name.now }
{
    match name {
        SlotName::Choice { path } => choice_ends(scene.choice(path)),
        SlotName::Start { .. } | SlotName::End { .. } => tick_ends(scene.setting()),
        SlotName::Value { path } => value_ends(scene.texts(), scene.value(path)),
        SlotName::Lane { .. } => Pair {
            low: 1,
            high: i64::from(scene.setting().lanes),
        },
        SlotName::Position { .. } => Pair {
            low: 0,
            high: i64::from(scene.setting().road) * MICROMETRES,
        },
        SlotName::Speed { .. } => Pair {
            low: 0,
            high: TOP_SPEED,
        },
    }
}

/// The ends of all slots of a scene, in order of the slots.
pub fn bounds(alloc: Global, scene: &Scene) -> Result<Bounds, AllocError>
    requires { (seen_scene scene.now).setting.ticks ≤ 600 }
    ensures { IfOk result (λ b. b.pairs ≡ all_ends (seen_scene scene.now)) }
{
    let names = slot_names(alloc, scene)?;
    ends_of_all(alloc, scene, names.as_slice())
}

/// The ends of the slots of these names, in order.
fn ends_of_all(alloc: Global, scene: &Scene, names: &[SlotName]) -> Result<Bounds, AllocError>
    ensures { IfOk result (λ b. b.pairs ≡ map (ends_in (seen_scene scene.now)) names.now) }
{
    let mut pairs = Row::new(alloc);
    'names: for name in names {
        pairs.push(ends_of(scene, name))?;
    }
    Ok(Bounds { pairs })
}

/// The ends of the member that a `one_of` chose.
fn choice_ends(choice: Option<&ChoiceSpot>) -> Pair
    ensures { result ≡ option_map_or (λ (c : ChoiceSpot). pair (pos 0) (pos (c.members - 1))) (option_copied choice.entry) no_ends }
{
    match choice {
        Some(choice) => Pair {
            low: 0,
            high: i64::from(choice.members.saturating_sub(1)),
        },
        None => NO_ENDS,
    }
}

/// The ends of a tick.
fn tick_ends(setting: Setting) -> Pair
    ensures { result ≡ ticks_by setting }
{
    Pair {
        low: 0,
        high: i64::from(setting.ticks),
    }
}

/// The ends of a value.
fn value_ends(texts: &[Text], value: Option<&ValueSpot>) -> Pair
    ensures { result ≡ option_map_or (λ (v : ValueSpot). range_by texts.now v.range) (option_copied value.entry) no_ends }
{
    match value {
        Some(value) => range_ends(texts, &value.range),
        None => NO_ENDS,
    }
}

/// The ends of a range: an enum's are its least and its greatest number, a text is its number among the texts.
fn range_ends(texts: &[Text], range: &ValueRange) -> Pair
    ensures { result ≡ range_by texts.now range.now }
{
    match range {
        ValueRange::Between { low, high } => Pair {
            low: *low,
            high: *high,
        },
        ValueRange::Among { numbers } => number_ends(numbers.as_slice()),
        ValueRange::Chars => Pair {
            low: 0,
            high: texts.len().saturating_sub(1) as i64,
        },
    }
}

/// The least and the greatest of some numbers. Of none both are 0.
pub fn number_ends(numbers: &[i64]) -> Pair
    ensures { result ≡ pair (least_of numbers.now) (greatest_of numbers.now) }
{
    match numbers.split_first() {
        Some((first, later)) => Pair {
            low: least(*first, later),
            high: greatest(*first, later),
        },
        None => NO_ENDS,
    }
}

/// The least of a number and those after it.
fn least(first: i64, later: &[i64]) -> i64
    ensures { result ≡ fold int_min first later.now }
{
    let mut least = first;
    'numbers: for number in later {
        least = least.min(*number);
    }
    least
}

/// The greatest of a number and those after it.
fn greatest(first: i64, later: &[i64]) -> i64
    ensures { result ≡ fold int_max first later.now }
{
    let mut greatest = first;
    'numbers: for number in later {
        greatest = greatest.max(*number);
    }
    greatest
}
