//! Whether what a run lists is in its range.

ghost use Rattle.std.specs.Prelude.{◌≡◌, find, not, bytes_eq, option_copied};
ghost use Rattle.std.specs.List.{list_all, list_any};
ghost use Rattle.osc_base.specs.Comparisons.{same_number};
ghost use Rattle.run_entries.specs.composition.Claims.{choice_in_range as choice_fits, sample_in_range as sample_fits, span_in_range as span_fits, value_in_range as value_fits};
ghost use Rattle.run_entries.specs.composition.Ranges.{lies_between as between, in_range};
ghost use Rattle.run_entries.specs.composition.SeenScenes.{seen_scene};
ghost use Rattle.run_entries.specs.composition.declared.run.Held.{Held};
ghost use Rattle.run_entries.specs.SeenRuns.{seen_run};

use osc_base::{Sample, Text};
use run_entries::{Choice, Entries, Held, Scene, Setting, Span, Trace, Value, ValueRange};

/// The greatest speed, in millimetres a second.
const TOP_SPEED: i64 = 1_000_000_000;

/// Micrometres in a metre.
const METRE: i64 = 1_000_000;

/// The choice is one of the members.
pub fn choice_in_range(scene: &Scene, choice: &Choice) -> bool
    ensures { result ≡ choice_fits (seen_scene scene.now) choice.now }
{
    match scene.choice(&choice.path) {
        Some(spot) => choice.member < spot.members,
        None => false,
    }
}

/// The phase doesn't end before it starts, and ends within the ticks.
pub fn span_in_range(setting: &Setting, span: &Span) -> bool
    ensures { result ≡ span_fits setting.now span.now }
{
    span.start <= span.end && span.end <= setting.ticks
}

/// The sample is on a lane and on the road, and not too fast.
pub fn sample_in_range(setting: &Setting, sample: &Sample) -> bool
    ensures { result ≡ sample_fits setting.now sample.now }
{
    lies_between(1, i64::from(setting.lanes), sample.lane)
        && (lies_between(0, i64::from(setting.road) * METRE, sample.position)
            && lies_between(0, TOP_SPEED, sample.speed))
}

/// A number from one to another.
fn lies_between(low: i64, high: i64, number: i64) -> bool
    ensures { result ≡ between low high number }
{
    low <= number && number <= high
}

/// The value is what its field may hold.
pub fn value_in_range(scene: &Scene, value: &Value) -> bool
    ensures { result ≡ value_fits (seen_scene scene.now) value.now }
{
    match scene.value(&value.path) {
        Some(spot) => may_hold(scene, &spot.range, &value.held),
        None => false,
    }
}

/// A field with this range may hold it.
fn may_hold(scene: &Scene, range: &ValueRange, held: &Held) -> bool
    ensures { result ≡ in_range (seen_scene scene.now).texts range.now held.now }
{
    match held {
        Held::Number(number) => may_be(range, *number, scene),
        Held::Chars(text) => may_read(range, text, scene),
    }
}

/// A field with this range may hold the number.
fn may_be(range: &ValueRange, number: i64, scene: &Scene) -> bool
    ensures { result ≡ in_range (seen_scene scene.now).texts range.now (Held.Number number) }
{
    match range {
        ValueRange::Between { low, high } => lies_between(*low, *high, number),
        ValueRange::Among { numbers } => is_among(numbers.as_slice(), number),
        ValueRange::Chars => false,
    }
}

/// The number is one of those.
fn is_among(numbers: &[i64], number: i64) -> bool
    ensures { result ≡ list_any (same_number number) numbers.now }
{
    numbers.iter().any(|other| number == *other)
}

/// A field with this range may hold the text.
fn may_read(range: &ValueRange, text: &Text, scene: &Scene) -> bool
    ensures { result ≡ in_range (seen_scene scene.now).texts range.now (Held.Chars text.now) }
{
    match range {
        ValueRange::Chars => is_text_of(scene, text),
        ValueRange::Between { .. } | ValueRange::Among { .. } => false,
    }
}

/// The text is one of the scene's.
fn is_text_of(scene: &Scene, text: &Text) -> bool
    ensures { result ≡ list_any (bytes_eq text.now) (seen_scene scene.now).texts }
{
    scene.text_place(text).is_some()
}

/// All samples of the trace are in range.
fn trace_in_range(setting: &Setting, trace: &Trace) -> bool
    ensures { result ≡ list_all (sample_fits setting.now) trace.now.samples }
{
    trace
        .samples
        .as_slice()
        .iter()
        .all(|sample| sample_in_range(setting, sample))
}

/// The first choice that is none of the members.
pub fn first_choice_out<'a>(scene: &Scene, run: &'a Entries<'_>) -> Option<&'a Choice>
    ensures { option_copied result ≡ find (λ c. not (choice_fits (seen_scene scene.now) c)) (seen_run run.now).choices }
{
    run.choices()
        .iter()
        .find(|choice| !choice_in_range(scene, choice))
}

/// The first value that its field may not hold.
pub fn first_value_out<'a>(scene: &Scene, run: &'a Entries<'_>) -> Option<&'a Value>
    ensures { option_copied result ≡ find (λ v. not (value_fits (seen_scene scene.now) v)) (seen_run run.now).values }
{
    run.values()
        .iter()
        .find(|value| !value_in_range(scene, value))
}

/// The first phase whose ticks are out of range.
pub fn first_span_out<'a>(setting: &Setting, run: &'a Entries<'_>) -> Option<&'a Span>
    ensures { option_copied result ≡ find (λ s. not (span_fits setting.now s)) (seen_run run.now).phases }
{
    run.phases()
        .iter()
        .find(|span| !span_in_range(setting, span))
}

/// The first trace with a sample that is out of range.
pub fn first_trace_out<'a>(setting: &Setting, run: &'a Entries<'_>) -> Option<&'a Trace>
    ensures { option_copied result ≡ find (λ t. not (list_all (sample_fits setting.now) t.samples)) (seen_run run.now).traces }
{
    run.traces()
        .iter()
        .find(|trace| !trace_in_range(setting, trace))
}
