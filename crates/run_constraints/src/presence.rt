//! Whether constraints and modifiers are there in a run.

ghost use Rattle.std.specs.Prelude.{◌≡◌, map, IfOk};
ghost use Rattle.std.specs.List.{list_all};
ghost use Rattle.scene_conditions.specs.composition.SeenParts.{seen_occurrence, seen_modifier};
ghost use Rattle.scene_conditions.specs.composition.There.{is_met as meets, are_met as meet_all, is_asked as asked_in, modifier_presence as conditions_of_modifier};
ghost use Rattle.scene_conditions.specs.composition.declared.guard.Guard.{Guard};
ghost use Rattle.run_values.specs.run_entries.SeenRuns.{seen_run};
ghost use Rattle.run_values.specs.SeenNumbers.{scene_in, run_in};
ghost use Rattle.scene_conditions.specs.SeenConditions.{seen_condition};

use osc_base::Path;
use run_values::{Entries, Held, Numbers};
use scene_conditions::{Condition, ModifierSpot, Occurrence, modifier_presence, presence};
use std::alloc::{AllocError, Global};

/// The `one_of` at the path chose this member.
fn chose(run: &Entries<'_>, phase: &Path, member: u32) -> bool
    ensures { result ≡ meets (seen_run run.now) (Guard.Choice phase.now member) }
{
    match run.member(phase) {
        Some(chosen) => member == chosen,
        None => false,
    }
}

/// The field at the path holds this number.
fn holds(run: &Entries<'_>, path: &Path, number: i64) -> bool
    ensures { result ≡ meets (seen_run run.now) (Guard.Value path.now number) }
{
    match run.held(path) {
        Some(Held::Number(held)) => *held == number,
        Some(Held::Chars(_)) => false,
        None => false,
    }
}

/// The run's entry for the condition's path says so.
fn is_met(run: &Entries<'_>, condition: &Condition<'_>) -> bool
    ensures { result ≡ meets (seen_run run.now) (seen_condition condition.now) }
{
    match condition {
        Condition::Choice { phase, member } => chose(run, phase, *member),
        Condition::Value { path, value } => holds(run, path, *value),
    }
}

/// All conditions are met.
fn are_met(run: &Entries<'_>, conditions: &[Condition<'_>]) -> bool
    ensures { result ≡ meet_all (seen_run run.now) (map seen_condition conditions.now) }
{
    each_is_met(run, conditions)
}

/// Each condition is met.
fn each_is_met(run: &Entries<'_>, conditions: &[Condition<'_>]) -> bool
    ensures { result ≡ list_all (λ c. meets (seen_run run.now) (seen_condition c)) conditions.now }
{
    conditions.iter().all(|condition| is_met(run, condition))
}

/// The constraint is there.
pub(crate) fn is_asked(
    alloc: Global,
    numbers: &Numbers<'_>,
    constraint: &Occurrence,
) -> Result<bool, AllocError>
    ensures { IfOk result (λ b. b ≡ asked_in (scene_in numbers.now) (run_in numbers.now) (seen_occurrence constraint.now)) }
{
    let conditions = presence(alloc, numbers.scene(), constraint)?;
    Ok(are_met(numbers.run(), conditions.as_slice()))
}

/// The modifier is there.
pub(crate) fn is_watched(
    alloc: Global,
    numbers: &Numbers<'_>,
    modifier: &ModifierSpot,
) -> Result<bool, AllocError>
    ensures { IfOk result (λ b. b ≡ meet_all (run_in numbers.now) (conditions_of_modifier (scene_in numbers.now) (seen_modifier modifier.now))) }
{
    let conditions = modifier_presence(alloc, numbers.scene(), modifier)?;
    Ok(are_met(numbers.run(), conditions.as_slice()))
}
