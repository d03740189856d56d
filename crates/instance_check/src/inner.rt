//! The constraints, the phases, the modifiers and the vehicles of a run.

ghost use Rattle.std.specs.Prelude.{◌≡◌, IfOk};
ghost use Rattle.std.specs.Option.{option_or};
ghost use Rattle.run_check.specs.composition.SeenScenes.{seen_scene};
ghost use Rattle.run_constraints.specs.run_entries.SeenRuns.{seen_run};
ghost use Rattle.run_constraints.specs.run_values.Frames.{IsWithin};
ghost use Rattle.run_constraints.specs.run_values.SeenNumbers.{scene_in, run_in};
ghost use Rattle.instance_check.specs.FirstWrong as firsts;

use crate::wrongs::{wrong, wrong_at};
use run_check::{Clause, Scene, Wrong};
use run_constraints::{
    Entries, Numbers, first_default, first_disarranged, first_hard, first_modifier,
};
use std::alloc::{AllocError, Global};

/// What the first hard constraint that fails tells.
fn hard_wrong(alloc: Global, numbers: &Numbers<'_>) -> Result<Option<Wrong>, AllocError>
    ensures { IfOk result (λ w. w ≡ firsts.hard_wrong (scene_in numbers.now) (run_in numbers.now)) }
{
    match first_hard(alloc, numbers)? {
        Some(constraint) => wrong(
            alloc,
            Clause::Hard,
            &constraint.holder,
            Some(constraint.place),
        ),
        None => Ok(None),
    }
}

/// What the first default that fails tells.
fn default_wrong(alloc: Global, numbers: &Numbers<'_>) -> Result<Option<Wrong>, AllocError>
    ensures { IfOk result (λ w. w ≡ firsts.default_wrong (scene_in numbers.now) (run_in numbers.now)) }
{
    match first_default(alloc, numbers)? {
        Some(constraint) => wrong(
            alloc,
            Clause::Default,
            &constraint.holder,
            Some(constraint.place),
        ),
        None => Ok(None),
    }
}

/// What the first phase that isn't arranged tells.
fn phase_wrong(alloc: Global, numbers: &Numbers<'_>) -> Result<Option<Wrong>, AllocError>
    ensures { IfOk result (λ w. w ≡ firsts.phase_wrong (scene_in numbers.now) (run_in numbers.now)) }
{
    match first_disarranged(numbers.scene(), numbers.run()) {
        Some(phase) => wrong(alloc, Clause::Arranged, &phase.path, None),
        None => Ok(None),
    }
}

/// What the first modifier that fails tells.
fn modifier_wrong(alloc: Global, numbers: &Numbers<'_>) -> Result<Option<Wrong>, AllocError>
    ensures { IfOk result (λ w. w ≡ firsts.modifier_wrong (scene_in numbers.now) (run_in numbers.now)) }
{
    match first_modifier(alloc, numbers)? {
        Some(modifier) => wrong(
            alloc,
            Clause::Modifier,
            &modifier.phase,
            Some(modifier.place),
        ),
        None => Ok(None),
    }
}

/// What the first vehicle that doesn't move as it may tells.
fn motion_wrong(alloc: Global, numbers: &Numbers<'_>) -> Result<Option<Wrong>, AllocError>
    ensures { IfOk result (λ w. w ≡ firsts.motion_wrong (scene_in numbers.now) (run_in numbers.now)) }
{
    wrong_at(alloc, Clause::Motion, numbers.first_unmoving(alloc)?)
}

fn after_phases(alloc: Global, numbers: &Numbers<'_>) -> Result<Option<Wrong>, AllocError>
    ensures { IfOk result (λ w. w ≡ option_or (firsts.modifier_wrong (scene_in numbers.now) (run_in numbers.now)) (firsts.motion_wrong (scene_in numbers.now) (run_in numbers.now))) }
{
    match modifier_wrong(alloc, numbers)? {
        Some(wrong) => Ok(Some(wrong)),
        None => motion_wrong(alloc, numbers),
    }
}

fn after_defaults(alloc: Global, numbers: &Numbers<'_>) -> Result<Option<Wrong>, AllocError>
    ensures { IfOk result (λ w. w ≡ option_or (firsts.phase_wrong (scene_in numbers.now) (run_in numbers.now)) (option_or (firsts.modifier_wrong (scene_in numbers.now) (run_in numbers.now)) (firsts.motion_wrong (scene_in numbers.now) (run_in numbers.now)))) }
{
    match phase_wrong(alloc, numbers)? {
        Some(wrong) => Ok(Some(wrong)),
        None => after_phases(alloc, numbers),
    }
}

fn after_hard(alloc: Global, numbers: &Numbers<'_>) -> Result<Option<Wrong>, AllocError>
    ensures { IfOk result (λ w. w ≡ option_or (firsts.default_wrong (scene_in numbers.now) (run_in numbers.now)) (option_or (firsts.phase_wrong (scene_in numbers.now) (run_in numbers.now)) (option_or (firsts.modifier_wrong (scene_in numbers.now) (run_in numbers.now)) (firsts.motion_wrong (scene_in numbers.now) (run_in numbers.now))))) }
{
    match default_wrong(alloc, numbers)? {
        Some(wrong) => Ok(Some(wrong)),
        None => after_defaults(alloc, numbers),
    }
}

fn wrong_of(alloc: Global, numbers: &Numbers<'_>) -> Result<Option<Wrong>, AllocError>
    ensures { IfOk result (λ w. w ≡ firsts.inner_wrong (scene_in numbers.now) (run_in numbers.now)) }
{
    match hard_wrong(alloc, numbers)? {
        Some(wrong) => Ok(Some(wrong)),
        None => after_hard(alloc, numbers),
    }
}

/// Why the constraints, the phases, the modifiers or the vehicles fail.
pub(crate) fn inner_wrong(
    alloc: Global,
    scene: &Scene,
    run: &Entries<'_>,
) -> Result<Option<Wrong>, AllocError>
    requires { IsWithin (seen_scene scene.now) (seen_run run.now) }
    ensures { IfOk result (λ w. w ≡ firsts.inner_wrong (seen_scene scene.now) (seen_run run.now)) }
{
    wrong_of(alloc, &Numbers::of(scene, run))
}
