//! The rules of constraints.

ghost use Rattle.std.specs.Prelude.{◌≡◌, ◌∷◌, [], ◌++◌, true, map, IfOk};
ghost use Rattle.box_eval.specs.FlatRules.{flat_rule, any_of};
ghost use Rattle.expr_nodes.specs.Seen.{seen_part};
ghost use Rattle.rule_parts.specs.composition.Invariants.{is_occurrence};
ghost use Rattle.rule_parts.specs.composition.SeenParts.{seen_occurrence};
ghost use Rattle.rule_parts.specs.composition.There.{presence as presence_in};
ghost use Rattle.rule_parts.specs.field_flatten.Rules.{typed_rule as rule_of, hard_rule as hard, default_rule as default_of, presence_of_number as number_rule, presence_rules};
ghost use Rattle.rule_parts.specs.Rooms.{has_rule, are_values};
ghost use Rattle.rule_parts.specs.scene_slots.SeenSlots.{layout_of, scene_of};

use box_eval::Rule;
use expr_nodes::Typed;
use rule_parts::{Occurrence, SceneSlots, condition_row, presence, rows, rule, under};
use std::alloc::{AllocError, Global};

/// The rule of an expression; always true if there is none.
fn typed_rule(
    alloc: Global,
    slots: &SceneSlots<'_>,
    typed: &Option<Typed>,
) -> Result<Rule, AllocError>
    requires { has_rule (seen_part typed.now) ≡ true }
    ensures { IfOk result (λ r. flat_rule r ≡ rule_of (layout_of slots.now) (seen_part typed.now)) }
{
    match typed {
        Some(typed) => rule(alloc, slots, typed),
        None => Ok(Rule::Always),
    }
}

/// The presence of a constraint as a row of rules.
fn presence_row(
    alloc: Global,
    slots: &SceneSlots<'_>,
    occurrence: &Occurrence,
) -> Result<Vec<Rule>, AllocError>
    ensures { IfOk result (λ rs. map flat_rule rs.items ≡ presence_rules (layout_of slots.now) (presence_in (scene_of slots.now) (seen_occurrence occurrence.now))) }
{
    let conditions = presence(alloc, slots.scene(), occurrence)?;
    condition_row(alloc, slots, conditions.as_slice())
}

/// A hard constraint holds, if it is there.
pub fn hard_rule(
    alloc: Global,
    slots: &SceneSlots<'_>,
    occurrence: &Occurrence,
) -> Result<Rule, AllocError>
    requires sound { is_occurrence (scene_of slots.now) (seen_occurrence occurrence.now) occurrence.now.mark.strength ≡ true }
    requires values { are_values (seen_part occurrence.now.typed) ≡ true }
    ensures { IfOk result (λ r. flat_rule r ≡ hard (scene_of slots.now) (layout_of slots.now) (seen_occurrence occurrence.now)) }
{
    let row = presence_row(alloc, slots, occurrence)?;
    under(alloc, row, typed_rule(alloc, slots, &occurrence.typed)?)
}

/// The constraint of that number is there.
fn presence_of_number(
    alloc: Global,
    slots: &SceneSlots<'_>,
    number: u32,
) -> Result<Rule, AllocError>
    ensures { IfOk result (λ r. flat_rule r ≡ number_rule (scene_of slots.now) (layout_of slots.now) number) }
{
    match slots.scene().occurrences().get(number as usize) {
        Some(occurrence) => rows::all(alloc, presence_row(alloc, slots, occurrence)?),
        None => rows::all(alloc, Vec::new(alloc)),
    }
}

/// The presence of each constraint of these numbers.
fn presences(
    alloc: Global,
    slots: &SceneSlots<'_>,
    numbers: &[u32],
) -> Result<Vec<Rule>, AllocError>
    ensures { IfOk result (λ rs. map flat_rule rs.items ≡ map (number_rule (scene_of slots.now) (layout_of slots.now)) numbers.now) }
{
    let mut row = Vec::new(alloc);
    'numbers: for number in numbers {
        row.push(presence_of_number(alloc, slots, *number)?)?;
    }
    Ok(row)
}

/// The expression holds, or some constraint of these numbers is there.
fn held_or_overridden(
    alloc: Global,
    slots: &SceneSlots<'_>,
    later: &[u32],
    typed: &Option<Typed>,
) -> Result<Rule, AllocError>
    requires { has_rule (seen_part typed.now) ≡ true }
    ensures { IfOk result (λ r. flat_rule r ≡ any_of (map (number_rule (scene_of slots.now) (layout_of slots.now)) later.now ++ rule_of (layout_of slots.now) (seen_part typed.now) ∷ [])) }
{
    let row = presences(alloc, slots, later)?;
    let row = rows::with_rule(row, typed_rule(alloc, slots, typed)?)?;
    rows::any(alloc, row)
}

/// A default holds, or some constraint of these numbers is there, if it is there.
pub fn default_rule(
    alloc: Global,
    slots: &SceneSlots<'_>,
    later: &[u32],
    occurrence: &Occurrence,
) -> Result<Rule, AllocError>
    requires sound { is_occurrence (scene_of slots.now) (seen_occurrence occurrence.now) occurrence.now.mark.strength ≡ true }
    requires values { are_values (seen_part occurrence.now.typed) ≡ true }
    ensures { IfOk result (λ r. flat_rule r ≡ default_of (scene_of slots.now) (layout_of slots.now) later.now (seen_occurrence occurrence.now)) }
{
    let row = presence_row(alloc, slots, occurrence)?;
    under(
        alloc,
        row,
        held_or_overridden(alloc, slots, later, &occurrence.typed)?,
    )
}
