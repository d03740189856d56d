//! Whether phases are arranged.

ghost use Rattle.std.specs.Prelude.{◌≡◌, ◌&&◌, find, not, int_le, int_lt, option_copied, pos};
ghost use Rattle.std.specs.List.{list_all, list_any};
ghost use Rattle.osc_base.specs.Comparisons.{same_number};
ghost use Rattle.osc_base.specs.Paths.{same_path};
ghost use Rattle.run_entries.specs.composition.Arrangement.{same_span as equal_spans, follow as are_followed, all_same, arranged as is_arranged_as, by_kind as as_kind_says, chosen_spans, covers as is_covered, overlap as share_moment, starts_of, ends_of};
ghost use Rattle.run_entries.specs.composition.Items.{times_of, arranged_holds as arranged_if_there};
ghost use Rattle.run_entries.specs.composition.Scenes.{phases as all_phases, root_do};
ghost use Rattle.run_entries.specs.composition.SeenScenes.{seen_scene};
ghost use Rattle.run_entries.specs.SeenRuns.{seen_run};
ghost use Rattle.run_clauses.specs.Latest.{is_first, is_last, latest, later_tick};

use crate::listing::is_root_do;
use osc_base::Path;
use run_entries::{Entries, PhaseKind, PhaseSpot, Scene};

/// The tick at which the phase starts, 0 if the run doesn't list it.
fn start_of(run: &Entries<'_>, phase: &Path) -> i64
    ensures { result ≡ (times_of (seen_run run.now)).start phase.now }
{
    match run.span(phase) {
        Some(span) => i64::from(span.start),
        None => 0,
    }
}

/// The tick at which the phase ends, 0 if the run doesn't list it.
fn end_of(run: &Entries<'_>, phase: &Path) -> i64
    ensures { result ≡ (times_of (seen_run run.now)).end phase.now }
{
    match run.span(phase) {
        Some(span) => i64::from(span.end),
        None => 0,
    }
}

/// Both phases start together and end together.
pub fn same_span(run: &Entries<'_>, a: &Path, b: &Path) -> bool
    ensures { result ≡ equal_spans (times_of (seen_run run.now)) a.now b.now }
{
    start_of(run, a) == start_of(run, b) && end_of(run, a) == end_of(run, b)
}

/// The first phase starts at a tick, each next when the one before ends, and the last ends at another tick.
pub fn follow(run: &Entries<'_>, from: i64, to: i64, phases: &[Path]) -> bool
    ensures { result ≡ are_followed (times_of (seen_run run.now)) from to phases.now }
{
    let mut tick = from;
    let mut rest = phases;
    while let [phase, later @ ..] = rest {
        if tick != start_of(run, phase) {
            return false;
        }
        tick = end_of(run, phase);
        rest = later;
    }
    tick == to
}

/// All phases have the span of the whole.
pub fn share_span(run: &Entries<'_>, whole: &Path, phases: &[Path]) -> bool
    ensures { result ≡ list_all (λ m. equal_spans (times_of (seen_run run.now)) m whole.now) phases.now }
{
    phases.iter().all(|phase| same_span(run, phase, whole))
}

/// The phase takes a tick at least.
pub fn takes_time(run: &Entries<'_>, phase: &Path) -> bool
    ensures { result ≡ int_lt ((times_of (seen_run run.now)).start phase.now) ((times_of (seen_run run.now)).end phase.now) }
{
    start_of(run, phase) < end_of(run, phase)
}

/// None of the others starts before the phase.
fn starts_before(run: &Entries<'_>, whole: &Path, phases: &[Path]) -> bool
    ensures { result ≡ list_all (λ m. int_le ((times_of (seen_run run.now)).start whole.now) ((times_of (seen_run run.now)).start m)) phases.now }
{
    let start = start_of(run, whole);
    phases.iter().all(|phase| start <= start_of(run, phase))
}

/// One of the others starts with the phase.
fn starts_with(run: &Entries<'_>, whole: &Path, phases: &[Path]) -> bool
    ensures { result ≡ list_any (λ m. same_number ((times_of (seen_run run.now)).start m) ((times_of (seen_run run.now)).start whole.now)) phases.now }
{
    let start = start_of(run, whole);
    phases.iter().any(|phase| start_of(run, phase) == start)
}

/// The phase starts when the first of the others does.
fn starts_first(run: &Entries<'_>, whole: &Path, phases: &[Path]) -> bool
    ensures { result ≡ is_first (times_of (seen_run run.now)).start whole.now phases.now }
{
    starts_before(run, whole, phases) && starts_with(run, whole, phases)
}

/// None of the others ends after the phase.
fn ends_after(run: &Entries<'_>, whole: &Path, phases: &[Path]) -> bool
    ensures { result ≡ list_all (λ m. int_le ((times_of (seen_run run.now)).end m) ((times_of (seen_run run.now)).end whole.now)) phases.now }
{
    let end = end_of(run, whole);
    phases.iter().all(|phase| end_of(run, phase) <= end)
}

/// One of the others ends with the phase.
fn ends_with(run: &Entries<'_>, whole: &Path, phases: &[Path]) -> bool
    ensures { result ≡ list_any (λ m. same_number ((times_of (seen_run run.now)).end m) ((times_of (seen_run run.now)).end whole.now)) phases.now }
{
    let end = end_of(run, whole);
    phases.iter().any(|phase| end_of(run, phase) == end)
}

/// The phase ends when the last of the others does.
fn ends_last(run: &Entries<'_>, whole: &Path, phases: &[Path]) -> bool
    ensures { result ≡ is_last (times_of (seen_run run.now)).end whole.now phases.now }
{
    ends_after(run, whole, phases) && ends_with(run, whole, phases)
}

/// The whole starts with the first of the phases and ends with the last.
fn spans(run: &Entries<'_>, whole: &Path, phases: &[Path]) -> bool
    ensures { result ≡ (is_first (times_of (seen_run run.now)).start whole.now phases.now && is_last (times_of (seen_run run.now)).end whole.now phases.now) }
{
    starts_first(run, whole, phases) && ends_last(run, whole, phases)
}

/// The whole covers the phases.
fn covers(run: &Entries<'_>, whole: &Path, phases: &[Path]) -> bool
    ensures { result ≡ is_covered (times_of (seen_run run.now)) whole.now phases.now }
{
    spans(run, whole, phases)
}

/// All phases start together.
fn start_together(run: &Entries<'_>, phases: &[Path]) -> bool
    ensures { result ≡ all_same (starts_of (times_of (seen_run run.now)) phases.now) }
{
    match phases {
        [first, others @ ..] => start_at(run, first, others),
        [] => true,
    }
}

/// All phases start with the first.
fn start_at(run: &Entries<'_>, first: &Path, phases: &[Path]) -> bool
    ensures { result ≡ list_all (same_number ((times_of (seen_run run.now)).start first.now)) (starts_of (times_of (seen_run run.now)) phases.now) }
{
    each_starts_at(run, first, phases)
}

/// All phases start with the first.
fn each_starts_at(run: &Entries<'_>, first: &Path, phases: &[Path]) -> bool
    ensures { result ≡ list_all (λ m. same_number ((times_of (seen_run run.now)).start first.now) ((times_of (seen_run run.now)).start m)) phases.now }
{
    let tick = start_of(run, first);
    phases.iter().all(|phase| tick == start_of(run, phase))
}

/// All phases end together.
fn end_together(run: &Entries<'_>, phases: &[Path]) -> bool
    ensures { result ≡ all_same (ends_of (times_of (seen_run run.now)) phases.now) }
{
    match phases {
        [first, others @ ..] => end_at(run, first, others),
        [] => true,
    }
}

/// All phases end with the first.
fn end_at(run: &Entries<'_>, first: &Path, phases: &[Path]) -> bool
    ensures { result ≡ list_all (same_number ((times_of (seen_run run.now)).end first.now)) (ends_of (times_of (seen_run run.now)) phases.now) }
{
    each_ends_at(run, first, phases)
}

/// All phases end with the first.
fn each_ends_at(run: &Entries<'_>, first: &Path, phases: &[Path]) -> bool
    ensures { result ≡ list_all (λ m. same_number ((times_of (seen_run run.now)).end first.now) ((times_of (seen_run run.now)).end m)) phases.now }
{
    let tick = end_of(run, first);
    phases.iter().all(|phase| tick == end_of(run, phase))
}

/// The tick at which the last of the phases starts.
fn latest_start(run: &Entries<'_>, phases: &[Path]) -> i64
    ensures { result ≡ latest (pos 0) (starts_of (times_of (seen_run run.now)) phases.now) }
{
    let mut tick = 0;
    let mut rest = phases;
    while let [phase, later @ ..] = rest {
        tick = later_of(tick, start_of(run, phase));
        rest = later;
    }
    tick
}

/// The later of two ticks.
fn later_of(a: i64, b: i64) -> i64
    ensures { result ≡ later_tick a b }
{
    if a <= b { b } else { a }
}

/// No phase ends before the last of them starts.
fn end_after_starts(run: &Entries<'_>, phases: &[Path]) -> bool
    ensures { result ≡ list_all (λ m. int_le (latest (pos 0) (starts_of (times_of (seen_run run.now)) phases.now)) ((times_of (seen_run run.now)).end m)) phases.now }
{
    let tick = latest_start(run, phases);
    phases.iter().all(|phase| tick <= end_of(run, phase))
}

/// The phases share a moment.
fn overlap(run: &Entries<'_>, phases: &[Path]) -> bool
    ensures { result ≡ share_moment (starts_of (times_of (seen_run run.now)) phases.now) (ends_of (times_of (seen_run run.now)) phases.now) }
{
    end_after_starts(run, phases)
}

/// The phase that the whole chose has its span.
fn chose_span(run: &Entries<'_>, whole: &Path, phases: &[Path]) -> bool
    ensures { result ≡ chosen_spans (times_of (seen_run run.now)) whole.now 0 phases.now }
{
    match phases.get(chosen(run, whole) as usize) {
        Some(phase) => same_span(run, phase, whole),
        None => true,
    }
}

/// The member that the `one_of` chose, 0 if the run doesn't list it.
fn chosen(run: &Entries<'_>, phase: &Path) -> u32
    ensures { pos result ≡ (times_of (seen_run run.now)).member phase.now }
{
    match run.member(phase) {
        Some(member) => member,
        None => 0,
    }
}

/// The phase is as its kind says.
fn is_as_kind_says(run: &Entries<'_>, phase: &PhaseSpot) -> bool
    ensures { result ≡ as_kind_says phase.now.kind (times_of (seen_run run.now)) phase.now.path phase.now.members }
{
    let members = phase.members.as_slice();
    match phase.kind {
        PhaseKind::Serial => follow(
            run,
            start_of(run, &phase.path),
            end_of(run, &phase.path),
            members,
        ),
        PhaseKind::Start => covers(run, &phase.path, members) && start_together(run, members),
        PhaseKind::End => covers(run, &phase.path, members) && end_together(run, members),
        PhaseKind::Equal => {
            covers(run, &phase.path, members)
                && (start_together(run, members) && end_together(run, members))
        }
        PhaseKind::Any => covers(run, &phase.path, members) && overlap(run, members),
        PhaseKind::OneOf => chose_span(run, &phase.path, members),
        PhaseKind::Scenario => share_span(run, &phase.path, members),
        PhaseKind::Action => takes_time(run, &phase.path),
        PhaseKind::Wait => true,
    }
}

/// The phase is arranged: it doesn't end before it starts, and is as its kind says. The `do` of the named scenario also
/// starts at tick 0.
fn is_arranged(run: &Entries<'_>, phase: &PhaseSpot) -> bool
    ensures { result ≡ is_arranged_as (times_of (seen_run run.now)) (same_path phase.now.path root_do) phase.now }
{
    start_of(run, &phase.path) <= end_of(run, &phase.path)
        && is_as_kind_says(run, phase)
        && (!is_root_do(&phase.path) || start_of(run, &phase.path) == 0)
}

/// The phase is arranged, if it is there.
pub fn arranged_holds(scene: &Scene, run: &Entries<'_>, phase: &PhaseSpot) -> bool
    ensures { result ≡ arranged_if_there (seen_scene scene.now) (seen_run run.now) phase.now }
{
    !run.is_there(scene, &phase.path) || is_arranged(run, phase)
}

/// The first phase that is there and isn't arranged.
pub fn first_disarranged<'a>(scene: &'a Scene, run: &Entries<'_>) -> Option<&'a PhaseSpot>
    ensures { option_copied result ≡ find (λ p. not (arranged_if_there (seen_scene scene.now) (seen_run run.now) p)) (all_phases (seen_scene scene.now)) }
{
    scene
        .phases()
        .iter()
        .find(|phase| !arranged_holds(scene, run, phase))
}
