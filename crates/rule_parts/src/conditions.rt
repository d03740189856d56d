//! Conditions as rules.

ghost use Rattle.std.specs.Prelude.{◌≡◌, ◌++◌, map, IfOk};
ghost use Rattle.box_eval.specs.FlatRules.{flat_rule, under as under_row};
ghost use Rattle.scene_slots.specs.field_flatten.Rules.{guard_rule as rule_of, presence_rules};
ghost use Rattle.scene_conditions.specs.SeenConditions.{seen_condition};
ghost use Rattle.scene_slots.specs.SeenSlots.{layout_of};

use box_eval::{Rule, Term};
use osc_base::Path;
use scene_conditions::{Condition, Guard};
use scene_slots::terms::{either, not};
use scene_slots::{SceneSlots, rows};
use std::alloc::{AllocError, Global};

/// The member of a `one_of` is chosen.
fn choice_rule(slots: &SceneSlots<'_>, phase: &Path, member: u32) -> Rule
    ensures { flat_rule result ≡ rule_of (layout_of slots.now) (Guard.Choice phase.now member) }
{
    let slot = slots.choice(phase);
    Rule::Equal(Term::Slot(slot), Term::Whole(i128::from(member)))
}

/// The field has that value.
fn value_rule(slots: &SceneSlots<'_>, path: &Path, value: i64) -> Rule
    ensures { flat_rule result ≡ rule_of (layout_of slots.now) (Guard.Value path.now value) }
{
    let slot = slots.value(path);
    Rule::Equal(Term::Slot(slot), Term::Whole(i128::from(value)))
}

/// A condition as a rule.
fn guard_rule(slots: &SceneSlots<'_>, guard: &Guard) -> Rule
    ensures { flat_rule result ≡ rule_of (layout_of slots.now) guard.now }
{
    match guard {
        Guard::Choice { phase, member } => choice_rule(slots, phase, *member),
        Guard::Value { path, value } => value_rule(slots, path, *value),
    }
}

/// A condition as a rule.
fn condition_rule(slots: &SceneSlots<'_>, condition: &Condition<'_>) -> Rule
    ensures { flat_rule result ≡ rule_of (layout_of slots.now) (seen_condition condition.now) }
{
    match condition {
        Condition::Choice { phase, member } => choice_rule(slots, phase, *member),
        Condition::Value { path, value } => value_rule(slots, path, *value),
    }
}

/// Conditions as a row of rules.
pub fn guard_row(
    alloc: Global,
    slots: &SceneSlots<'_>,
    guards: &[Guard],
) -> Result<Vec<Rule>, AllocError>
    ensures { IfOk result (λ rs. map flat_rule rs.items ≡ presence_rules (layout_of slots.now) guards.now) }
{
    let mut row = Vec::new(alloc);
    'guards: for guard in guards {
        row.push(guard_rule(slots, guard))?;
    }
    Ok(row)
}

/// Conditions as a row of rules.
pub fn condition_row(
    alloc: Global,
    slots: &SceneSlots<'_>,
    conditions: &[Condition<'_>],
) -> Result<Vec<Rule>, AllocError>
    ensures { IfOk result (λ rs. map flat_rule rs.items ≡ presence_rules (layout_of slots.now) (map seen_condition conditions.now)) }
{
    let mut row = Vec::new(alloc);
    'conditions: for condition in conditions {
        row.push(condition_rule(slots, condition))?;
    }
    Ok(row)
}

/// A rule under a row of conditions.
pub fn under(alloc: Global, row: Vec<Rule>, rule: Rule) -> Result<Rule, AllocError>
    ensures { IfOk result (λ r. flat_rule r ≡ under_row (map flat_rule row.items) (flat_rule rule)) }
{
    if row.is_empty() {
        return Ok(rule);
    }
    let missing = not(alloc, rows::all(alloc, row)?)?;
    either(alloc, missing, rule)
}

/// An equal row.
fn copied(alloc: Global, row: &[Rule]) -> Result<Vec<Rule>, AllocError>
    ensures { IfOk result (λ rs. rs.items ≡ row.now) }
{
    let mut copies = Vec::new(alloc);
    'rules: for rule in row {
        copies.push(rule.copy(alloc)?)?;
    }
    Ok(copies)
}

/// A rule under an equal row of conditions.
fn under_copy(alloc: Global, conditions: &[Rule], rule: Rule) -> Result<Rule, AllocError>
    ensures { IfOk result (λ r. flat_rule r ≡ under_row (map flat_rule conditions.now) (flat_rule rule)) }
{
    under(alloc, copied(alloc, conditions)?, rule)
}

/// Each rule of a row under the same conditions.
pub fn each_under(
    alloc: Global,
    conditions: &[Rule],
    rules: Vec<Rule>,
) -> Result<Vec<Rule>, AllocError>
    ensures { IfOk result (λ rs. map flat_rule rs.items ≡ map (under_row (map flat_rule conditions.now)) (map flat_rule rules.items)) }
{
    let mut row = Vec::new(alloc);
    'rules: for rule in rules {
        row.push(under_copy(alloc, conditions, rule)?)?;
    }
    Ok(row)
}

/// A row with those of another behind.
pub fn with_row(row: Vec<Rule>, more: Vec<Rule>) -> Result<Vec<Rule>, AllocError>
    ensures { IfOk result (λ rs. map flat_rule rs.items ≡ map flat_rule row.items ++ map flat_rule more.items) }
{
    let mut row = row;
    'rules: for rule in more {
        row.push(rule)?;
    }
    Ok(row)
}
