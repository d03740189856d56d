//! The first hard constraint that fails.

ghost use Rattle.std.specs.Prelude.{◌≡◌, option_map, true, IfOk};
ghost use Rattle.expr_nodes.specs.Seen.{seen_part};
ghost use Rattle.scene_conditions.specs.composition.SeenParts.{seen_occurrence};
ghost use Rattle.run_values.specs.SeenNumbers.{scene_in, run_in};
ghost use Rattle.run_constraints.specs.FirstConstraints as firsts;

use crate::presence::is_asked;
use crate::truth::is_satisfied;
use osc_base::Strength;
use run_values::Numbers;
use scene_conditions::Occurrence;
use std::alloc::{AllocError, Global};

/// The constraint is hard.
fn is_hard(strength: Strength) -> bool
    ensures { result ≡ firsts.is_hard_one strength }
{
    match strength {
        Strength::Hard => true,
        Strength::Default | Strength::Remove => false,
    }
}

/// The constraint is hard and there, and it isn't true.
fn fails(alloc: Global, numbers: &Numbers<'_>, constraint: &Occurrence) -> Result<bool, AllocError>
    requires { firsts.is_sound_part (scene_in numbers.now) (seen_part constraint.now.typed) ≡ true }
    ensures { IfOk result (λ b. b ≡ firsts.fails_hard (scene_in numbers.now) (run_in numbers.now) (seen_occurrence constraint.now)) }
{
    if is_hard(constraint.mark.strength) {
        is_untrue(alloc, numbers, constraint)
    } else {
        Ok(false)
    }
}

/// The constraint is there, and it isn't true.
pub(crate) fn is_untrue(
    alloc: Global,
    numbers: &Numbers<'_>,
    constraint: &Occurrence,
) -> Result<bool, AllocError>
    requires { firsts.is_sound_part (scene_in numbers.now) (seen_part constraint.now.typed) ≡ true }
    ensures { IfOk result (λ b. b ≡ firsts.is_untrue (scene_in numbers.now) (run_in numbers.now) (seen_occurrence constraint.now)) }
{
    let is_there = is_asked(alloc, numbers, constraint)?;
    Ok(is_there && !is_satisfied(numbers, &constraint.typed))
}

/// The first hard constraint that is there and isn't true.
pub fn first_hard<'n>(
    alloc: Global,
    numbers: &'n Numbers<'_>,
) -> Result<Option<&'n Occurrence>, AllocError>
    ensures { IfOk result (λ r. option_map (λ o. seen_occurrence o.now) r ≡ firsts.first_hard (scene_in numbers.now) (run_in numbers.now) (scene_in numbers.now).occurrences) }
{
    let mut rest = numbers.scene().occurrences();
    while let [constraint, later @ ..] = rest {
        let failed = fails(alloc, numbers, constraint)?;
        if failed {
            return Ok(Some(constraint));
        }
        rest = later;
    }
    Ok(None)
}
