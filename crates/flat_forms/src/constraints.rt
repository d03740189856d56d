//! The rules of all constraints.

ghost use Rattle.std.specs.Prelude.{◌≡◌, ◌++◌, ℕ, true, map, OnOk};
ghost use Rattle.std.specs.List.{list_all};
ghost use Rattle.box_eval.specs.FlatRules.{flat_rule};
ghost use Rattle.keep_rules.specs.Overriding.{overriders};
ghost use Rattle.keep_rules.specs.TargetLists.{later_of};
ghost use Rattle.scene_rules.specs.composition.Items.{occurrence_item, occurrence_items};
ghost use Rattle.scene_rules.specs.composition.Scenes.{marks as all_marks};
ghost use Rattle.scene_rules.specs.composition.SeenParts.{seen_occurrence};
ghost use Rattle.slot_ends.specs.field_flatten.Rules.{item_rule};
ghost use Rattle.flat_forms.specs.SoundParts.{is_sound_occurrence};
ghost use Rattle.slot_ends.specs.scene_slots.SeenSlots.{layout_of, scene_of};

use crate::marks::{next_number, targets_of};
use box_eval::Rule;
use keep_rules::Targets;
use osc_base::{Row, Strength};
use scene_rules::{Occurrence, SceneSlots, default_rule, hard_rule};
use std::alloc::{AllocError, Global};

/// Puts the rule of a constraint at the end: none for a `remove_default`.
fn push_constraint(
    alloc: Global,
    slots: &SceneSlots<'_>,
    targets: &Targets,
    number: u32,
    constraint: &Occurrence,
    rules: &mut Row<Rule>,
) -> Result<(), AllocError>
    requires targets { (i : ℕ) → later_of targets.now i ≡ overriders (all_marks (scene_of slots.now)) i }
    requires sound { is_sound_occurrence (scene_of slots.now) (seen_occurrence constraint.now) ≡ true }
    ensures { OnOk result (map flat_rule rules.new ≡ map flat_rule rules.old ++ map (item_rule (scene_of slots.now) (layout_of slots.now)) (occurrence_item (scene_of slots.now) number constraint.now.mark.strength (seen_occurrence constraint.now))) }
{
    match constraint.mark.strength {
        Strength::Hard => rules.push(hard_rule(alloc, slots, constraint)?),
        Strength::Default => {
            let later = targets.overriders(number);
            rules.push(default_rule(alloc, slots, later, constraint)?)
        }
        Strength::Remove => Ok(()),
    }
}

/// Puts the rules of these constraints at the end. They are numbered from 0.
fn push_each(
    alloc: Global,
    slots: &SceneSlots<'_>,
    targets: &Targets,
    constraints: &[Occurrence],
    rules: &mut Row<Rule>,
) -> Result<(), AllocError>
    requires targets { (i : ℕ) → later_of targets.now i ≡ overriders (all_marks (scene_of slots.now)) i }
    requires sound { list_all (is_sound_occurrence (scene_of slots.now)) (map seen_occurrence constraints.now) ≡ true }
    ensures { OnOk result (map flat_rule rules.new ≡ map flat_rule rules.old ++ map (item_rule (scene_of slots.now) (layout_of slots.now)) (occurrence_items (scene_of slots.now) 0 (map seen_occurrence constraints.now))) }
{
    let mut number = 0;
    'constraints: for constraint in constraints {
        push_constraint(alloc, slots, targets, number, constraint, rules)?;
        number = next_number(number)?;
    }
    Ok(())
}

/// Puts the rules of all constraints of a scene at the end.
pub(crate) fn push_constraints(
    alloc: Global,
    slots: &SceneSlots<'_>,
    rules: &mut Row<Rule>,
) -> Result<(), AllocError>
    requires { list_all (is_sound_occurrence (scene_of slots.now)) (scene_of slots.now).occurrences ≡ true }
    ensures { OnOk result (map flat_rule rules.new ≡ map flat_rule rules.old ++ map (item_rule (scene_of slots.now) (layout_of slots.now)) (occurrence_items (scene_of slots.now) 0 (scene_of slots.now).occurrences)) }
{
    let targets = targets_of(alloc, slots.scene())?;
    push_each(alloc, slots, &targets, slots.scene().occurrences(), rules)
}
