//! Why a run is no instance, in words.

use crate::asks::is_duration;
use crate::decimals::{put_decimal, put_seconds, put_tick};
use crate::modifier::wrong_modifier;
use crate::motion::wrong_motion;
use crate::places::{RulePlace, place_in, put_place, view_at};
use crate::read_values::put_values;
use crate::run_parts::{
    Sample, end_of, item_of, number_at, sample_at, samples_of, span_of, tick_of,
};
use crate::setting::Asked;
use command_words::Setting;
use message_parts::{bytes_of, source_of};
use mistake_cases::View;
use outside_io::MemoryShelf;
use serde_json::Value;
use std::alloc::{AllocError, Global};

/// The longest run that is read again, in bytes.
const LONGEST_RUN: usize = 4_194_304;

/// A line `no CLAUSE PATH`, with the place behind it if there is one.
#[derive(Debug, Clone, Copy)]
struct Failed<'a> {
    clause: &'a str,
    path: &'a str,
    place: Option<RulePlace<'a>>,
}

/// Puts why a run is no instance: the line that was written, in words, and what the run has there.
pub fn put_failed(
    alloc: Global,
    text: &mut String,
    asked: &Asked<'_>,
    line: &str,
    kept: &mut MemoryShelf,
) -> Result<(), AllocError> {
    let Some(failed) = failed_in(line) else {
        return Ok(());
    };
    let run = run_of(alloc, asked.file, kept)?;
    let (file, scenario) = (asked.file, asked.source.scenario);
    write!(
        text,
        "no instance: the run in `{file}` is none of `{scenario}`, since "
    )?;
    put_clause(text, failed)?;
    text.push_str("\n")?;
    match failed.place {
        Some(place) => put_at_place(alloc, text, asked, failed, place, run.as_ref(), kept),
        None => put_at_path(alloc, text, asked, failed, run.as_ref()),
    }
}

fn failed_in(line: &str) -> Option<Failed<'_>> {
    let line = line.trim_end().strip_prefix("no ")?;
    let (clause, rest) = line.split_once(' ')?;
    let (path, place) = match rest.split_once(' ') {
        Some((path, place)) => (path, place_in(place)),
        None => (rest, None),
    };
    Some(Failed {
        clause,
        path,
        place,
    })
}

/// The run of a file that was read. `None` if it isn't kept, or is long.
fn run_of(alloc: Global, file: &str, kept: &mut MemoryShelf) -> Result<Option<Value>, AllocError> {
    let bytes = source_of(alloc, file, kept)?;
    let Some(bytes) = bytes_of(&bytes) else {
        return Ok(None);
    };
    if bytes.len() > LONGEST_RUN {
        return Ok(None);
    }
    match str::from_utf8(bytes) {
        Ok(text) => Ok(Value::from_str(alloc, text).ok()),
        Err(_) => Ok(None),
    }
}

/// Puts what fails, in words.
fn put_clause(text: &mut String, failed: Failed<'_>) -> Result<(), AllocError> {
    let path = failed.path;
    match failed.clause {
        "listed" => write!(text, "it doesn't list `{path}` as the scenario has it"),
        "end" => text.push_str("it doesn't end as it has to"),
        "bounds" => write!(text, "`{path}` isn't within its range"),
        "hard" => text.push_str("a constraint doesn't hold"),
        "default" => text.push_str("a default doesn't hold, which nothing overrides"),
        "arranged" => write!(text, "the phase `{path}` isn't arranged as its kind says"),
        "modifier" => text.push_str("a modifier doesn't hold"),
        "motion" => write!(text, "`{path}` moves as it may not"),
        _ => text.push_str("a clause fails"),
    }
}

/// Puts the line of the source, and what the run has there.
fn put_at_place(
    alloc: Global,
    text: &mut String,
    asked: &Asked<'_>,
    failed: Failed<'_>,
    place: RulePlace<'_>,
    run: Option<&Value>,
    kept: &mut MemoryShelf,
) -> Result<(), AllocError> {
    put_place(alloc, text, place, "", kept)?;
    let Some(run) = run else {
        return Ok(());
    };
    let bytes = source_of(alloc, place.file, kept)?;
    let Some(view) = view_at(bytes_of(&bytes), place) else {
        return Ok(());
    };
    if failed.clause != "modifier" {
        return put_read(alloc, text, asked, failed, &view, run, kept);
    }
    if failed.path.contains('.') {
        return Ok(());
    }
    let what = wrong_modifier(alloc, &view, run, failed.path)?;
    put_note(text, what.as_str())
}

/// Puts what the run has of the fields that a constraint reads, or how long a phase takes.
fn put_read(
    alloc: Global,
    text: &mut String,
    asked: &Asked<'_>,
    failed: Failed<'_>,
    view: &View<'_>,
    run: &Value,
    kept: &mut MemoryShelf,
) -> Result<(), AllocError> {
    let mut what = String::new(alloc);
    if is_duration(view) {
        put_length(&mut what, run, failed.path)?;
    } else if failed.path == "." {
        put_values(alloc, &mut what, view, run, asked, kept)?;
    }
    put_note(text, what.as_str())
}

/// Puts how long a phase takes.
fn put_length(text: &mut String, run: &Value, path: &str) -> Result<(), AllocError> {
    let Some((start, end)) = span_of(run, path) else {
        return Ok(());
    };
    write!(text, "`{path}` takes ")?;
    put_seconds(text, end.saturating_sub(start), tick_of(run))?;
    write!(text, ", from tick {start} to tick {end}")
}

/// Puts a line of its own, unless there is nothing to say.
fn put_note(text: &mut String, what: &str) -> Result<(), AllocError> {
    if what.is_empty() {
        return Ok(());
    }
    write!(text, "  = note: {what}\n")
}

/// Puts what the run has at a path.
fn put_at_path(
    alloc: Global,
    text: &mut String,
    asked: &Asked<'_>,
    failed: Failed<'_>,
    run: Option<&Value>,
) -> Result<(), AllocError> {
    let Some(run) = run else {
        return Ok(());
    };
    let mut what = String::new(alloc);
    match failed.clause {
        "motion" => what = wrong_motion(alloc, run, failed.path)?,
        "end" => put_end(&mut what, run, asked.setting)?,
        "arranged" => put_span(&mut what, run, failed.path)?,
        "bounds" => put_bounds(&mut what, run, failed.path, asked.setting)?,
        "listed" => put_listed(&mut what, run, failed.path)?,
        _ => {}
    }
    put_note(text, what.as_str())
}

/// Puts how long the run's ticks are if that is wrong; else where it ends, and where it has to.
fn put_end(text: &mut String, run: &Value, setting: Setting) -> Result<(), AllocError> {
    let (length, tick) = (tick_of(run), setting.tick);
    if length != i64::from(tick) {
        return write!(
            text,
            "its ticks have {length} ms, and those of the setting {tick} ms (`--tick {tick}`)"
        );
    }
    let Some(end) = end_of(run).and_then(|end| u64::try_from(end).ok()) else {
        return Ok(());
    };
    text.push_str("it ends at ")?;
    put_tick(text, end, length)?;
    let ticks = setting.ticks;
    if end > u64::from(ticks) {
        text.push_str(", and a run has at most ")?;
        put_seconds(text, i64::from(ticks), length)?;
        return write!(text, " (`--ticks {ticks}`)");
    }
    match span_of(run, "do") {
        Some((_, last)) => {
            text.push_str(", and its `do` at ")?;
            put_tick(text, u64::try_from(last).unwrap_or(0), length)
        }
        None => text.push_str(", and without a `do` a run ends at tick 0"),
    }
}

/// Puts when a phase starts and ends.
fn put_span(text: &mut String, run: &Value, path: &str) -> Result<(), AllocError> {
    let Some((start, end)) = span_of(run, path) else {
        return Ok(());
    };
    write!(text, "`{path}` goes from tick {start} to tick {end}")?;
    let Some(phases) = run.get("phases").and_then(Value::as_array) else {
        return Ok(());
    };
    for phase in phases.as_slice() {
        put_part(text, phase, path)?;
    }
    Ok(())
}

/// Puts when a phase starts and ends, if it is a member of another one.
fn put_part(text: &mut String, phase: &Value, path: &str) -> Result<(), AllocError> {
    let Some(parts) = phase.as_array() else {
        return Ok(());
    };
    let parts = parts.as_slice();
    let Some(name) = parts.first().and_then(Value::as_str) else {
        return Ok(());
    };
    let Some(step) = name.strip_prefix(path) else {
        return Ok(());
    };
    let is_member = (step.starts_with('[') && step.ends_with(']') && step.matches('[').count() == 1)
        || step == ".do";
    match (number_at(parts, 1), number_at(parts, 2)) {
        (Some(start), Some(end)) if is_member => write!(text, ", `{name}` from {start} to {end}"),
        _ => Ok(()),
    }
}

/// Puts what the run has at a path that isn't within its range.
fn put_bounds(
    text: &mut String,
    run: &Value,
    path: &str,
    setting: Setting,
) -> Result<(), AllocError> {
    if let Some(samples) = samples_of(run, path) {
        return put_outside(text, samples, setting, tick_of(run));
    }
    if let Some(parts) = item_of(run, "values", path) {
        return match number_at(parts, 1) {
            Some(number) => {
                write!(text, "the run has {number} there, which would be ")?;
                put_decimal(text, number, 3)?;
                text.push_str(" of a base unit")
            }
            None => Ok(()),
        };
    }
    if let Some((start, end)) = span_of(run, path) {
        return write!(text, "it goes from tick {start} to tick {end}");
    }
    match item_of(run, "choices", path).and_then(|parts| number_at(parts, 1)) {
        Some(member) => write!(text, "the member {member} is chosen; members count from 0"),
        None => Ok(()),
    }
}

/// Puts the first sample that isn't on the road.
fn put_outside(
    text: &mut String,
    samples: &[Value],
    setting: Setting,
    length: i64,
) -> Result<(), AllocError> {
    let (lanes, road) = (setting.lanes, setting.road);
    for tick in 0..samples.len() {
        let Some(sample) = sample_at(samples, tick) else {
            return Ok(());
        };
        let Sample {
            lane,
            position,
            speed,
        } = sample;
        let is_on_lane = 1 <= lane && lane <= i64::from(lanes);
        let is_on_road = 0 <= position && position <= i64::from(road).saturating_mul(1_000_000);
        if !is_on_lane || !is_on_road || speed < 0 {
            text.push_str("at ")?;
            put_tick(text, u64::try_from(tick).unwrap_or(0), length)?;
            write!(text, " it is on lane {lane} at ")?;
            put_decimal(text, position, 6)?;
            text.push_str(" m with a speed of ")?;
            put_decimal(text, speed, 3)?;
            return write!(
                text,
                " m/s: the road has the lanes 1 to {lanes} and {road} m"
            );
        }
    }
    Ok(())
}

/// Puts whether the run has a path that isn't listed as the scenario has it.
fn put_listed(text: &mut String, run: &Value, path: &str) -> Result<(), AllocError> {
    let end = end_of(run).unwrap_or(0);
    if let Some(samples) = samples_of(run, path) {
        let (count, wanted) = (samples.len(), end.saturating_add(1));
        return write!(
            text,
            "samples of `{path}`: {count}, where a run to tick {end} has {wanted}"
        );
    }
    for list in ["choices", "values", "phases"] {
        if item_of(run, list, path).is_some() {
            return write!(
                text,
                "it has `{path}` among its {list}, at another place than the scenario or without need"
            );
        }
    }
    write!(
        text,
        "it has no `{path}`: it may be a run of another scenario, or of another version of the source"
    )
}
