//! The first default that fails.

ghost use Rattle.std.specs.Prelude.{◌≡◌, ◌+◌, ℕ, false, map, option_map, slice_get, true, unwrap_or, IfOk};
ghost use Rattle.std.specs.List.{list_any};
ghost use Rattle.expr_nodes.specs.Seen.{seen_part};
ghost use Rattle.scene_conditions.specs.keep_rules.Overriding.{is_default as is_default_one, overriders};
ghost use Rattle.scene_conditions.specs.keep_rules.TargetLists.{later_of};
ghost use Rattle.scene_conditions.specs.composition.Items.{is_overridden as overridden_in};
ghost use Rattle.scene_conditions.specs.composition.Scenes.{marks as all_marks};
ghost use Rattle.scene_conditions.specs.composition.SeenParts.{seen_occurrence};
ghost use Rattle.scene_conditions.specs.composition.There.{is_asked as asked_in};
ghost use Rattle.run_values.specs.SeenNumbers.{scene_in, run_in};
ghost use Rattle.run_constraints.specs.FirstConstraints as firsts;

use crate::constraints::is_untrue;
use crate::presence::is_asked;
use keep_rules::Targets;
use osc_base::{Mark, Row, Strength};
use run_values::Numbers;
use scene_conditions::Occurrence;
use std::alloc::{AllocError, Global};

/// Which constraints are there in a run, and which override which.
#[derive(Drop)]
struct Overrides {
    flags: Row<bool>,
    targets: Targets,
}

/// The constraint is a default.
fn is_default(strength: Strength) -> bool
    ensures { result ≡ is_default_one strength }
{
    match strength {
        Strength::Default => true,
        Strength::Hard | Strength::Remove => false,
    }
}

/// Whether each constraint is there.
fn all_asked(alloc: Global, numbers: &Numbers<'_>) -> Result<Row<bool>, AllocError>
    ensures { IfOk result (λ r. r ≡ map (asked_in (scene_in numbers.now) (run_in numbers.now)) (scene_in numbers.now).occurrences) }
{
    let constraints = numbers.scene().occurrences();
    let mut flags = Row::new(alloc);
    for constraint in constraints {
        let is_there = is_asked(alloc, numbers, constraint)?;
        flags.push(is_there)?;
    }
    Ok(flags)
}

/// An equal mark.
fn copy_of(alloc: Global, mark: &Mark) -> Result<Mark, AllocError>
    ensures { IfOk result (λ m. m ≡ mark.now) }
{
    let target = match &mark.target {
        Some(target) => Some(target.copy(alloc)?),
        None => None,
    };
    Ok(Mark {
        target,
        strength: mark.strength,
    })
}

/// The marks of all constraints.
fn marks_of(alloc: Global, numbers: &Numbers<'_>) -> Result<Row<Mark>, AllocError>
    ensures { IfOk result (λ r. r ≡ all_marks (scene_in numbers.now)) }
{
    let constraints = numbers.scene().occurrences();
    let mut marks = Row::new(alloc);
    for constraint in constraints {
        let mark = copy_of(alloc, &constraint.mark)?;
        marks.push(mark)?;
    }
    Ok(marks)
}

/// The constraint with that number is there.
fn is_flagged(flags: &[bool], number: u32) -> bool
    ensures { result ≡ unwrap_or (slice_get flags.now number) false }
{
    match flags.get(number as usize) {
        Some(flag) => *flag,
        None => false,
    }
}

/// One of the constraints with these numbers is there.
fn is_any_flagged(flags: &[bool], numbers: &[u32]) -> bool
    ensures { result ≡ list_any (λ i. unwrap_or (slice_get flags.now i) false) numbers.now }
{
    numbers.iter().any(|number| is_flagged(flags, *number))
}

impl Overrides {
    /// Constraint `number` is overridden.
    fn is_overridden(&self, _numbers: &Numbers<'_>, number: u32) -> bool
        requires flags { self.now.flags ≡ map (asked_in (scene_in _numbers.now) (run_in _numbers.now)) (scene_in _numbers.now).occurrences }
        requires targets { (i : ℕ) → later_of self.now.targets i ≡ overriders (all_marks (scene_in _numbers.now)) i }
        ensures { result ≡ overridden_in (scene_in _numbers.now) (run_in _numbers.now) (overriders (all_marks (scene_in _numbers.now)) number) }
    {
        is_any_flagged(self.flags.as_slice(), self.targets.overriders(number))
    }

    /// The constraint with that number is a default that is there, it isn't overridden, and it isn't true.
    fn fails(
        &self,
        alloc: Global,
        numbers: &Numbers<'_>,
        number: u32,
        constraint: &Occurrence,
    ) -> Result<bool, AllocError>
        requires flags { self.now.flags ≡ map (asked_in (scene_in numbers.now) (run_in numbers.now)) (scene_in numbers.now).occurrences }
        requires targets { (i : ℕ) → later_of self.now.targets i ≡ overriders (all_marks (scene_in numbers.now)) i }
        requires sound { firsts.is_sound_part (scene_in numbers.now) (seen_part constraint.now.typed) ≡ true }
        ensures { IfOk result (λ b. b ≡ firsts.fails_default (scene_in numbers.now) (run_in numbers.now) number (seen_occurrence constraint.now)) }
    {
        if is_default(constraint.mark.strength) && !self.is_overridden(numbers, number) {
            is_untrue(alloc, numbers, constraint)
        } else {
            Ok(false)
        }
    }
}

/// The next number. A number that a `u32` doesn't hold counts as out of memory.
fn next_number(number: u32) -> Result<u32, AllocError>
    ensures { IfOk result (λ n. n ≡ number + 1) }
{
    number.checked_add(1).ok_or(AllocError)
}

/// The first default that is there, isn't overridden and isn't true.
pub fn first_default<'n>(
    alloc: Global,
    numbers: &'n Numbers<'_>,
) -> Result<Option<&'n Occurrence>, AllocError>
    ensures { IfOk result (λ r. option_map (λ o. seen_occurrence o.now) r ≡ firsts.first_default (scene_in numbers.now) (run_in numbers.now) 0 (scene_in numbers.now).occurrences) }
{
    let flags = all_asked(alloc, numbers)?;
    let marks = marks_of(alloc, numbers)?;
    let targets = Targets::build(alloc, marks.as_slice())?;
    first_failing(alloc, numbers, &Overrides { flags, targets })
}

/// The first default that fails.
fn first_failing<'n>(
    alloc: Global,
    numbers: &'n Numbers<'_>,
    overrides: &Overrides,
) -> Result<Option<&'n Occurrence>, AllocError>
    requires flags { overrides.now.flags ≡ map (asked_in (scene_in numbers.now) (run_in numbers.now)) (scene_in numbers.now).occurrences }
    requires targets { (i : ℕ) → later_of overrides.now.targets i ≡ overriders (all_marks (scene_in numbers.now)) i }
    ensures { IfOk result (λ r. option_map (λ o. seen_occurrence o.now) r ≡ firsts.first_default (scene_in numbers.now) (run_in numbers.now) 0 (scene_in numbers.now).occurrences) }
{
    let mut number = 0;
    let mut rest = numbers.scene().occurrences();
    while let [constraint, later @ ..] = rest {
        let failed = overrides.fails(alloc, numbers, number, constraint)?;
        if failed {
            return Ok(Some(constraint));
        }
        number = next_number(number)?;
        rest = later;
    }
    Ok(None)
}
