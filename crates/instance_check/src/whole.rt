//! The check of a run.

ghost use Rattle.std.specs.Prelude.{◌≡◌, true, IfOk};
ghost use Rattle.std.specs.List.{list_all};
ghost use Rattle.run_check.specs.composition.Claims.{end_claim, bounds_claims};
ghost use Rattle.run_check.specs.composition.SeenScenes.{seen_scene};
ghost use Rattle.run_check.specs.Answers.{first_wrong};
ghost use Rattle.run_constraints.specs.run_entries.SeenRuns.{seen_run};
ghost use Rattle.run_constraints.specs.run_values.Frames.{IsCheckable};
ghost use Rattle.instance_check.specs.FirstWrong as firsts;

use crate::inner::inner_wrong;
use crate::outer::outer_wrong;
use run_check::{Run, Scene, Wrong};
use run_constraints::Entries;
use std::alloc::{AllocError, Global};

/// Why a run is no instance of the scene: the first clause that fails, with its path, and with its place in the source if
/// it is about a constraint or a modifier. `None` exactly if the run is an instance.
///
/// Out of memory is the only error. What is asked of the scene holds of each scene that is expanded and limited
/// (`IsExpanded` and `IsLimited` of `field_flatten`).
pub fn check(alloc: Global, scene: &Scene, run: &Run) -> Result<Option<Wrong>, AllocError>
    requires { IsCheckable (seen_scene scene.now) }
    ensures { IfOk result (λ w. w ≡ first_wrong (seen_scene scene.now) run.now) }
{
    let entries = Entries::of(alloc, run)?;
    check_entries(alloc, scene, &entries)
}

/// Why the run is no instance.
fn check_entries(
    alloc: Global,
    scene: &Scene,
    run: &Entries<'_>,
) -> Result<Option<Wrong>, AllocError>
    requires { IsCheckable (seen_scene scene.now) }
    ensures { IfOk result (λ w. w ≡ first_wrong (seen_scene scene.now) (seen_run run.now)) }
{
    let outer = outer_wrong(alloc, scene, run)?;
    match outer {
        Some(wrong) => Ok(Some(wrong)),
        None => after_outer(alloc, scene, run),
    }
}

/// Why a run that ends when it is to end, and whose parts are in range, is no instance.
fn after_outer(alloc: Global, scene: &Scene, run: &Entries<'_>) -> Result<Option<Wrong>, AllocError>
    requires scene { IsCheckable (seen_scene scene.now) }
    requires ended { (end_claim (seen_scene scene.now) (seen_run run.now)).holds ≡ true }
    requires bounded { list_all (λ c. c.holds) (bounds_claims (seen_scene scene.now) (seen_run run.now)) ≡ true }
    ensures { IfOk result (λ w. w ≡ firsts.inner_wrong (seen_scene scene.now) (seen_run run.now)) }
{
    inner_wrong(alloc, scene, run)
}
