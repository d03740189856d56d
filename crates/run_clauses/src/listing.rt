//! Whether a run lists what is there, and ends when it is to end.

ghost use Rattle.std.specs.Prelude.{◌≡◌, ◌+◌, ◌&&◌, length, find, map, nat_eq, nat_le, not, option_copied, option_map};
ghost use Rattle.osc_base.specs.declared.path.Path.{Path};
ghost use Rattle.osc_base.specs.Paths.{same_path};
ghost use Rattle.run_entries.specs.composition.Claims.{ends_with_root_do as end_is_right};
ghost use Rattle.run_entries.specs.composition.Scenes.{has_root_do as has_do, root_do};
ghost use Rattle.run_entries.specs.composition.SeenScenes.{seen_scene};
ghost use Rattle.run_entries.specs.composition.There.{is_there};
ghost use Rattle.run_entries.specs.composition.RunParts.{span_in};
ghost use Rattle.run_entries.specs.SeenRuns.{seen_run};
ghost use Rattle.run_clauses.specs.Listing as listing;

use osc_base::{Path, Step};
use run_entries::{Choice, ChoiceSpot, Entries, PhaseSpot, Scene, Span, Trace, Value, ValueSpot};

/// What stands at a path, in a scene or in a run.
pub trait Standing {
    ghost stands_at: { Self → Path };

    /// The path.
    fn at(&self) -> &Path
        ensures { result.now ≡ stands_at self.now };
}

impl Standing for ChoiceSpot {
    ghost stands_at = { λ s. s.path };

    fn at(&self) -> &Path {
        &self.path
    }
}

impl Standing for ValueSpot {
    ghost stands_at = { λ s. s.path };

    fn at(&self) -> &Path {
        &self.path
    }
}

impl Standing for PhaseSpot {
    ghost stands_at = { λ s. s.path };

    fn at(&self) -> &Path {
        &self.path
    }
}

impl Standing for Path {
    ghost stands_at = { λ p. p };

    fn at(&self) -> &Path {
        self
    }
}

impl Standing for Choice {
    ghost stands_at = { λ c. c.path };

    fn at(&self) -> &Path {
        &self.path
    }
}

impl Standing for Value {
    ghost stands_at = { λ v. v.path };

    fn at(&self) -> &Path {
        &self.path
    }
}

impl Standing for Span {
    ghost stands_at = { λ s. s.path };

    fn at(&self) -> &Path {
        &self.path
    }
}

impl Standing for Trace {
    ghost stands_at = { λ t. t.path };

    fn at(&self) -> &Path {
        &self.path
    }
}

/// The first path at which a list of the run isn't the part of a list of the scene that is there. It is the path that is
/// to stand there, or the run's if nothing more is to stand there.
pub fn first_unlisted<'a, T: Standing, U: Standing>(
    scene: &Scene,
    run: &Entries<'_>,
    wanted: &'a [T],
    given: &'a [U],
) -> Option<&'a Path>
    ensures { option_copied result ≡ listing.first_unlisted (is_there (seen_scene scene.now) (seen_run run.now)) T.stands_at U.stands_at wanted.now given.now }
{
    let mut rest = wanted;
    let mut left = given;
    while let [part, later @ ..] = rest {
        match left_after(scene, run, part.at(), left) {
            Some(others) => left = others,
            None => return Some(part.at()),
        }
        rest = later;
    }
    first_path(left)
}

/// What is left of a list after what stands at the path, if that is there. `None` if the list doesn't begin with it.
fn left_after<'a, U: Standing>(
    scene: &Scene,
    run: &Entries<'_>,
    wanted: &Path,
    given: &'a [U],
) -> Option<&'a [U]>
    ensures { option_map (λ left. left.now) result ≡ listing.left_after (is_there (seen_scene scene.now) (seen_run run.now)) U.stands_at wanted.now given.now }
{
    if !run.is_there(scene, wanted) {
        return Some(given);
    }
    if begins_at(given, wanted) {
        Some(later(given))
    } else {
        None
    }
}

/// The list begins with something at the path.
fn begins_at<U: Standing>(given: &[U], wanted: &Path) -> bool
    ensures { result ≡ listing.begins_at U.stands_at wanted.now given.now }
{
    match given {
        [first, ..] => wanted.is(first.at()),
        [] => false,
    }
}

/// The list without its first thing.
fn later<U>(given: &[U]) -> &[U]
    ensures { result.now ≡ listing.later given.now }
{
    match given {
        [_first, later @ ..] => later,
        [] => &[],
    }
}

/// The path of the first thing.
fn first_path<U: Standing>(given: &[U]) -> Option<&Path>
    ensures { option_copied result ≡ listing.first_path U.stands_at given.now }
{
    match given {
        [first, ..] => Some(first.at()),
        [] => None,
    }
}

/// The first trace that doesn't have a sample for each tick up to the end.
pub fn first_uneven<'a>(run: &'a Entries<'_>) -> Option<&'a Trace>
    ensures { option_copied result ≡ find (λ t. not (nat_eq (length t.samples) ((seen_run run.now).end + 1))) (seen_run run.now).traces }
{
    run.traces().iter().find(|trace| !is_even(run, trace))
}

/// The trace has a sample for each tick up to the end.
fn is_even(run: &Entries<'_>, trace: &Trace) -> bool
    ensures { result ≡ nat_eq (length trace.now.samples) ((seen_run run.now).end + 1) }
{
    trace.samples.as_slice().len() == run.end() as usize + 1
}

/// The path is that of the `do` of the named scenario.
pub fn is_root_do(path: &Path) -> bool
    ensures { result ≡ same_path path.now root_do }
{
    is_do(path)
}

/// The path is `do` alone.
fn is_do(path: &Path) -> bool
    ensures { result ≡ listing.is_do path.now.steps }
{
    match path.steps.as_slice() {
        [Step::Name(name)] => name.as_str() == "do",
        _ => false,
    }
}

/// The named scenario has a `do`.
pub fn has_root_do(scene: &Scene) -> bool
    ensures { result ≡ has_do (seen_scene scene.now) }
{
    scene.phases().iter().any(|phase| is_root_do(&phase.path))
}

/// The ticks of the `do` of the named scenario.
fn root_span<'a>(run: &'a Entries<'_>) -> Option<&'a Span>
    ensures { option_copied result ≡ span_in (seen_run run.now) root_do }
{
    run.phases().iter().find(|span| is_root_do(&span.path))
}

/// The run ends when the `do` of the named scenario does, or at tick 0 without one.
fn ends_with_root_do(scene: &Scene, run: &Entries<'_>) -> bool
    ensures { result ≡ end_is_right (seen_scene scene.now) (seen_run run.now) }
{
    if !has_root_do(scene) {
        return run.end() == 0;
    }
    match root_span(run) {
        Some(span) => run.end() == span.end,
        None => false,
    }
}

/// The run has the ticks of the setting, and ends when it is to end.
pub fn ends_right(scene: &Scene, run: &Entries<'_>) -> bool
    ensures { result ≡ (nat_eq (seen_run run.now).tick (seen_scene scene.now).setting.tick && (nat_le (seen_run run.now).end (seen_scene scene.now).setting.ticks && end_is_right (seen_scene scene.now) (seen_run run.now))) }
{
    let setting = scene.setting();
    run.tick() == setting.tick && (run.end() <= setting.ticks && ends_with_root_do(scene, run))
}
