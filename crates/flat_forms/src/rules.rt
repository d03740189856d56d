//! The rules of all items of a scene.

ghost use Rattle.std.specs.Prelude.{◌≡◌, ◌<◌, ◌≤◌, ◌^◌, ◌++◌, flat_map, true, map, IfOk, OnOk};
ghost use Rattle.std.specs.List.{list_all};
ghost use Rattle.box_eval.specs.FlatRules.{flat_rule};
ghost use Rattle.scene_rules.specs.composition.Items.{typed_item};
ghost use Rattle.scene_rules.specs.composition.SeenParts.{seen_modifier};
ghost use Rattle.scene_rules.specs.composition.SeenScenes.{seen_scene};
ghost use Rattle.scene_rules.specs.composition.Slots.{ticks_of};
ghost use Rattle.scene_rules.specs.composition.declared.spot.ValueSpot.{ValueSpot};
ghost use Rattle.slot_ends.specs.field_flatten.Rules.{item_rule, arranged_rule as rule_of_phase, modifier_rule, motion_rule, rules as all_rules};
ghost use Rattle.flat_forms.specs.SoundParts.{is_sound_occurrence, is_sound_modifier};
ghost use Rattle.slot_ends.specs.scene_slots.flat_shapes.Room.{longest_tick};
ghost use Rattle.slot_ends.specs.scene_slots.Numbers.{past as all_slots};
ghost use Rattle.slot_ends.specs.scene_slots.SeenSlots.{layout_of, scene_of};

use crate::constraints::push_constraints;
use crate::enums::gapped;
use box_eval::Rule;
use osc_base::{Path, Row};
use scene_rules::{ModifierSpot, PhaseSpot, SceneSlots, arranged_rule, enum_rule};
use slot_ends::{Scene, ValueSpot};
use std::alloc::{AllocError, Global};
use vehicle_rules::{modifier_rules, motion_rules};

/// Puts the rule of a value at the end, if it is of an enum with numbers left out.
fn push_enum(
    alloc: Global,
    slots: &SceneSlots<'_>,
    value: &ValueSpot,
    rules: &mut Row<Rule>,
) -> Result<(), AllocError>
    ensures { OnOk result (map flat_rule rules.new ≡ map flat_rule rules.old ++ map (item_rule (scene_of slots.now) (layout_of slots.now)) (typed_item value.now.path value.now.range)) }
{
    match gapped(&value.range) {
        Some(numbers) => rules.push(enum_rule(alloc, slots, &value.path, numbers)?),
        None => Ok(()),
    }
}

/// Puts the rules of enums with numbers left out at the end.
fn push_enums(
    alloc: Global,
    slots: &SceneSlots<'_>,
    values: &[ValueSpot],
    rules: &mut Row<Rule>,
) -> Result<(), AllocError>
    ensures { OnOk result (map flat_rule rules.new ≡ map flat_rule rules.old ++ flat_map (λ (v : ValueSpot). map (item_rule (scene_of slots.now) (layout_of slots.now)) (typed_item v.path v.range)) values.now) }
{
    'values: for value in values {
        push_enum(alloc, slots, value, rules)?;
    }
    Ok(())
}

/// Puts the rules of phases at the end.
fn push_phases(
    alloc: Global,
    slots: &SceneSlots<'_>,
    phases: &[PhaseSpot],
    rules: &mut Row<Rule>,
) -> Result<(), AllocError>
    ensures { OnOk result (map flat_rule rules.new ≡ map flat_rule rules.old ++ map (rule_of_phase (scene_of slots.now) (layout_of slots.now)) phases.now) }
{
    'phases: for phase in phases {
        rules.push(arranged_rule(alloc, slots, phase)?)?;
    }
    Ok(())
}

/// Puts the rules of modifiers at the end, each at every tick.
fn push_modifiers(
    alloc: Global,
    slots: &SceneSlots<'_>,
    modifiers: &[ModifierSpot],
    rules: &mut Row<Rule>,
) -> Result<(), AllocError>
    requires few { (scene_of slots.now).setting.ticks ≤ 600 }
    requires sound { list_all (is_sound_modifier (scene_of slots.now)) (map seen_modifier modifiers.now) ≡ true }
    ensures { OnOk result (map flat_rule rules.new ≡ map flat_rule rules.old ++ flat_map (λ m. map (modifier_rule (scene_of slots.now) (layout_of slots.now) m) (ticks_of (scene_of slots.now).setting)) (map seen_modifier modifiers.now)) }
{
    'modifiers: for modifier in modifiers {
        modifier_rules(alloc, slots, modifier, rules)?;
    }
    Ok(())
}

/// Puts the rules of the motion of vehicles at the end, each at every tick.
fn push_motions(
    alloc: Global,
    slots: &SceneSlots<'_>,
    vehicles: &[Path],
    rules: &mut Row<Rule>,
) -> Result<(), AllocError>
    requires { (scene_of slots.now).setting.ticks ≤ 600 }
    ensures { OnOk result (map flat_rule rules.new ≡ map flat_rule rules.old ++ flat_map (λ v. map (motion_rule (scene_of slots.now) (layout_of slots.now) v) (ticks_of (scene_of slots.now).setting)) vehicles.now) }
{
    'vehicles: for vehicle in vehicles {
        motion_rules(alloc, slots, vehicle, rules)?;
    }
    Ok(())
}

/// The rules of the scene that these slots are of.
fn rules_over(alloc: Global, slots: &SceneSlots<'_>) -> Result<Row<Rule>, AllocError>
    requires few { (scene_of slots.now).setting.ticks ≤ 600 }
    requires constraints { list_all (is_sound_occurrence (scene_of slots.now)) (scene_of slots.now).occurrences ≡ true }
    requires modifiers { list_all (is_sound_modifier (scene_of slots.now)) (scene_of slots.now).modifiers ≡ true }
    ensures { IfOk result (λ rs. map flat_rule rs ≡ all_rules (scene_of slots.now)) }
{
    let scene = slots.scene();
    let mut rules = Row::new(alloc);
    push_constraints(alloc, slots, &mut rules)?;
    push_enums(alloc, slots, scene.values(), &mut rules)?;
    push_phases(alloc, slots, scene.phases(), &mut rules)?;
    push_modifiers(alloc, slots, scene.modifiers(), &mut rules)?;
    push_motions(alloc, slots, scene.vehicles(), &mut rules)?;
    Ok(rules)
}

/// The rules of a scene, one for each of its items.
pub(crate) fn rules_of(alloc: Global, scene: &Scene) -> Result<Row<Rule>, AllocError>
    requires few { all_slots (seen_scene scene.now) < 2 ^ 32 }
    requires short { (seen_scene scene.now).setting.tick ≤ longest_tick }
    requires ticks { (seen_scene scene.now).setting.ticks ≤ 600 }
    requires constraints { list_all (is_sound_occurrence (seen_scene scene.now)) (seen_scene scene.now).occurrences ≡ true }
    requires modifiers { list_all (is_sound_modifier (seen_scene scene.now)) (seen_scene scene.now).modifiers ≡ true }
    ensures { IfOk result (λ rs. map flat_rule rs ≡ all_rules (seen_scene scene.now)) }
{
    let slots = SceneSlots::of(alloc, scene)?;
    rules_over(alloc, &slots)
}
