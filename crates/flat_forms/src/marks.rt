//! Which constraints override which.

ghost use Rattle.std.specs.Prelude.{◌≡◌, ◌+◌, ℕ, map, IfOk};
ghost use Rattle.std.specs.List.{list_any};
ghost use Rattle.osc_base.specs.declared.mark.Mark.{Mark as AnyMark};
ghost use Rattle.keep_rules.specs.Overriding.{is_default as default_strength, overriders};
ghost use Rattle.keep_rules.specs.TargetLists.{later_of};
ghost use Rattle.scene_rules.specs.composition.Scenes.{marks as all_marks};
ghost use Rattle.scene_rules.specs.composition.SeenParts.{seen_occurrence};
ghost use Rattle.scene_rules.specs.composition.SeenScenes.{seen_scene};

use keep_rules::Targets;
use osc_base::{Mark, Row, Strength};
use scene_rules::Occurrence;
use slot_ends::Scene;
use std::alloc::{AllocError, Global};

/// An equal mark.
fn copy_of(alloc: Global, mark: &Mark) -> Result<Mark, AllocError>
    ensures { IfOk result (λ m. m ≡ mark.now) }
{
    let target = match &mark.target {
        Some(target) => Some(target.copy(alloc)?),
        None => None,
    };
    Ok(Mark {
        target,
        strength: mark.strength,
    })
}

/// The marks of constraints.
fn marks_of(alloc: Global, constraints: &[Occurrence]) -> Result<Row<Mark>, AllocError>
    ensures { IfOk result (λ ms. ms ≡ map (λ o. o.mark) (map seen_occurrence constraints.now)) }
{
    let mut marks = Row::new(alloc);
    'constraints: for constraint in constraints {
        marks.push(copy_of(alloc, &constraint.mark)?)?;
    }
    Ok(marks)
}

/// A mark of this strength is a default's.
fn is_default(strength: Strength) -> bool
    ensures { result ≡ default_strength strength }
{
    match strength {
        Strength::Default => true,
        Strength::Hard | Strength::Remove => false,
    }
}

/// One of these is a default.
fn has_default(constraints: &[Occurrence]) -> bool
    ensures { result ≡ list_any (λ (m : AnyMark). default_strength m.strength) (map (λ o. o.mark) (map seen_occurrence constraints.now)) }
{
    'constraints: for constraint in constraints {
        if is_default(constraint.mark.strength) {
            return true;
        }
    }
    false
}

/// Marks that tell which constraints override which: those of all, or none if none is a default.
fn telling_marks(alloc: Global, constraints: &[Occurrence]) -> Result<Row<Mark>, AllocError>
    ensures { IfOk result (λ ms. (i : ℕ) → overriders ms i ≡ overriders (map (λ o. o.mark) (map seen_occurrence constraints.now)) i) }
{
    if has_default(constraints) {
        marks_of(alloc, constraints)
    } else {
        Ok(Row::new(alloc))
    }
}

/// Which constraints of a scene override which.
pub(crate) fn targets_of(alloc: Global, scene: &Scene) -> Result<Targets, AllocError>
    ensures { IfOk result (λ t. (i : ℕ) → later_of t i ≡ overriders (all_marks (seen_scene scene.now)) i) }
{
    let marks = telling_marks(alloc, scene.occurrences())?;
    Targets::build(alloc, marks.as_slice())
}

/// The next number. A number that a `u32` doesn't hold counts as out of memory.
pub(crate) fn next_number(number: u32) -> Result<u32, AllocError>
    ensures { IfOk result (λ n. n ≡ number + 1) }
{
    number.checked_add(1).ok_or(AllocError)
}
