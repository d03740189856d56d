//! The lists, the end and the bounds of a run.

ghost use Rattle.std.specs.Prelude.{◌≡◌, option_copied, IfOk};
ghost use Rattle.std.specs.Option.{option_or};
ghost use Rattle.run_check.specs.composition.SeenScenes.{seen_scene};
ghost use Rattle.run_constraints.specs.run_entries.SeenRuns.{seen_run};
ghost use Rattle.instance_check.specs.FirstWrong as firsts;

use crate::wrongs::{either, wrong_at};
use osc_base::{Path, Row, Step, Text};
use run_check::{Clause, Scene, Wrong};
use run_constraints::{
    Entries, ends_right, first_choice_out, first_span_out, first_trace_out, first_uneven,
    first_unlisted, first_value_out, has_root_do,
};
use std::alloc::{AllocError, Global};

/// The path of the first trace that is too long or too short.
fn uneven_path<'a>(run: &'a Entries<'_>) -> Option<&'a Path>
    ensures { option_copied result ≡ firsts.first_uneven (seen_run run.now) }
{
    match first_uneven(run) {
        Some(trace) => Some(&trace.path),
        None => None,
    }
}

/// The first path at which a list isn't what is there, or whose trace is too long or too short.
fn unlisted_path<'a>(scene: &'a Scene, run: &'a Entries<'_>) -> Option<&'a Path>
    ensures { option_copied result ≡ firsts.first_path_unlisted (seen_scene scene.now) (seen_run run.now) }
{
    let choices = first_unlisted(scene, run, scene.choices(), run.choices());
    let values = first_unlisted(scene, run, scene.values(), run.values());
    let phases = first_unlisted(scene, run, scene.phases(), run.phases());
    let vehicles = first_unlisted(scene, run, scene.vehicles(), run.traces());
    let listed = either(either(either(choices, values), phases), vehicles);
    either(listed, uneven_path(run))
}

/// The path of the first choice that is none of the members.
fn choice_path<'a>(scene: &Scene, run: &'a Entries<'_>) -> Option<&'a Path>
    ensures { option_copied result ≡ firsts.first_choice_out (seen_scene scene.now) (seen_run run.now) }
{
    match first_choice_out(scene, run) {
        Some(choice) => Some(&choice.path),
        None => None,
    }
}

/// The path of the first value that its field may not hold.
fn value_path<'a>(scene: &Scene, run: &'a Entries<'_>) -> Option<&'a Path>
    ensures { option_copied result ≡ firsts.first_value_out (seen_scene scene.now) (seen_run run.now) }
{
    match first_value_out(scene, run) {
        Some(value) => Some(&value.path),
        None => None,
    }
}

/// The path of the first phase whose ticks are out of range.
fn span_path<'a>(scene: &Scene, run: &'a Entries<'_>) -> Option<&'a Path>
    ensures { option_copied result ≡ firsts.first_span_out (seen_scene scene.now) (seen_run run.now) }
{
    match first_span_out(&scene.setting(), run) {
        Some(span) => Some(&span.path),
        None => None,
    }
}

/// The path of the first trace with a sample that is out of range.
fn trace_path<'a>(scene: &Scene, run: &'a Entries<'_>) -> Option<&'a Path>
    ensures { option_copied result ≡ firsts.first_trace_out (seen_scene scene.now) (seen_run run.now) }
{
    match first_trace_out(&scene.setting(), run) {
        Some(trace) => Some(&trace.path),
        None => None,
    }
}

/// The path of the first thing that is out of range.
fn path_out<'a>(scene: &Scene, run: &'a Entries<'_>) -> Option<&'a Path>
    ensures { option_copied result ≡ firsts.first_path_out (seen_scene scene.now) (seen_run run.now) }
{
    let fields = either(choice_path(scene, run), value_path(scene, run));
    either(
        either(fields, span_path(scene, run)),
        trace_path(scene, run),
    )
}

/// The path of the `do` of the named scenario, or of the scenario without one.
fn end_path(alloc: Global, scene: &Scene) -> Result<Path, AllocError>
    ensures { IfOk result (λ p. p ≡ firsts.end_path (seen_scene scene.now)) }
{
    let mut steps = Row::new(alloc);
    if has_root_do(scene) {
        steps.push(Step::Name(Text::copy(alloc, "do")?))?;
    }
    Ok(Path { steps })
}

/// Why the run doesn't end as it is to end.
fn end_wrong(alloc: Global, scene: &Scene, run: &Entries<'_>) -> Result<Option<Wrong>, AllocError>
    ensures { IfOk result (λ w. w ≡ firsts.end_wrong (seen_scene scene.now) (seen_run run.now)) }
{
    if ends_right(scene, run) {
        return Ok(None);
    }
    Ok(Some(Wrong {
        clause: Clause::End,
        path: end_path(alloc, scene)?,
        place: None,
    }))
}

/// Why the lists, the end or the bounds fail.
pub(crate) fn outer_wrong(
    alloc: Global,
    scene: &Scene,
    run: &Entries<'_>,
) -> Result<Option<Wrong>, AllocError>
    ensures { IfOk result (λ w. w ≡ option_or (firsts.listed_wrong (seen_scene scene.now) (seen_run run.now)) (option_or (firsts.end_wrong (seen_scene scene.now) (seen_run run.now)) (firsts.bounds_wrong (seen_scene scene.now) (seen_run run.now)))) }
{
    match wrong_at(alloc, Clause::Listed, unlisted_path(scene, run))? {
        Some(wrong) => Ok(Some(wrong)),
        None => after_listed(alloc, scene, run),
    }
}

/// Why the end or the bounds fail.
fn after_listed(
    alloc: Global,
    scene: &Scene,
    run: &Entries<'_>,
) -> Result<Option<Wrong>, AllocError>
    ensures { IfOk result (λ w. w ≡ option_or (firsts.end_wrong (seen_scene scene.now) (seen_run run.now)) (firsts.bounds_wrong (seen_scene scene.now) (seen_run run.now))) }
{
    match end_wrong(alloc, scene, run)? {
        Some(wrong) => Ok(Some(wrong)),
        None => wrong_at(alloc, Clause::Bounds, path_out(scene, run)),
    }
}
