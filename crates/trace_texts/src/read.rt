//! A recording from its text.

ghost use Rattle.std.specs.Prelude.{◌≡◌, ◌+◌, [], codes, option_copied, option_map, find, not, IfOk};
ghost use Rattle.std.specs.BTreeMap.{keys};
ghost use Rattle.std.specs.String.{string_bytes};
ghost use Rattle.serde_json.specs.View.{view, members_view, items_view};
ghost use Rattle.run_texts.specs.RunReading.{IsTold};
ghost use Rattle.run_texts.specs.RunShape.{key_at as at_key, item_at as at_item, if_there, keys as keys_in};
ghost use Rattle.trace_texts.specs.TraceReading.{IsReading, IsJson, IsStopOf, IsShapeOf};
ghost use Rattle.trace_texts.specs.TraceShape as shape;
ghost use Rattle.trace_texts.specs.TraceShape.{AreTraces};

use crate::gathered::Gathered;
use crate::stop::TracesStop;
use asked_forms::{Trace, Traces};
use osc_base::{Path, Row, Sample};
use run_texts::{
    FromJson, Misfit, RunStop, here, in_item, in_key, is_list_of, item_at, key_at, list_in,
    number_at, read_json,
};
use serde_json::{Map, Value as Json};
use std::alloc::Global;

/// The recording of a text: one JSON object with the keys `end`, `form` (1) and `traces`. White space and the order of
/// keys are free, and of equal keys the last counts. Each trace has a sample for each tick from 0 to the end, and no two
/// traces are of one path.
///
/// `BadJson` comes exactly if the bytes aren't UTF-8 or are no JSON text. `BadShape` comes exactly if the JSON isn't of
/// a recording's shape, with the pointer of the first place that differs: the keys in order, each list from its front,
/// and then the least key that a recording doesn't have. A list of samples of another length differs itself, and so does
/// a path that an earlier trace has.
pub fn read_traces(alloc: Global, bytes: &[u8]) -> Result<Traces, TracesStop>
    ensures reading { IsReading bytes.now result }
    ensures traces { IfOk result (λ t. AreTraces t) }
{
    let json = json_of(alloc, bytes)?;
    match traces_of(alloc, &json) {
        Ok(traces) => Ok(traces),
        Err(misfit) => Err(shape_of(misfit)),
    }
}

fn json_of(alloc: Global, bytes: &[u8]) -> Result<Json, TracesStop>
    ensures { IsJson bytes.now result }
{
    match read_json(alloc, bytes) {
        Ok(json) => Ok(json),
        Err(stop) => Err(stop_of(stop)),
    }
}

/// Why the bytes give no JSON value.
fn stop_of(stop: RunStop) -> TracesStop
    ensures { IsStopOf stop result }
{
    match stop {
        RunStop::BadJson => TracesStop::BadJson,
        RunStop::BadShape(pointer) => TracesStop::BadShape(pointer),
        RunStop::Memory => TracesStop::Memory,
    }
}

/// Why the JSON value gives no recording.
fn shape_of(misfit: Misfit) -> TracesStop
    ensures { IsShapeOf misfit result }
{
    match misfit {
        Misfit::At(pointer) => TracesStop::BadShape(pointer),
        Misfit::Memory => TracesStop::Memory,
    }
}

/// The recording that the value is.
fn traces_of(alloc: Global, json: &Json) -> Result<Traces, Misfit>
    ensures { IsTold (shape.traces_from (view json.now)) result }
{
    let end = key_at::<u32>(alloc, json, "end")?;
    number_at(alloc, json, "form", 1, 1)?;
    let traces = traces_at(alloc, json, end as usize + 1)?;
    without_extra(alloc, json, Traces { end, traces })
}

/// The traces at their key, each with so many samples.
fn traces_at(alloc: Global, json: &Json, count: usize) -> Result<Row<Trace>, Misfit>
    ensures { IsTold (at_key (shape.traces_in count) (codes "traces") (view json.now)) result }
{
    in_key(alloc, "traces", if_traces(alloc, json.get("traces"), count))
}

fn if_traces(alloc: Global, json: Option<&Json>, count: usize) -> Result<Row<Trace>, Misfit>
    ensures { IsTold (if_there (shape.traces_in count) (option_map (λ v. view v.now) json.entry)) result }
{
    match json {
        Some(json) => traces_in(alloc, json, count),
        None => Err(here(alloc)),
    }
}

fn traces_in(alloc: Global, json: &Json, count: usize) -> Result<Row<Trace>, Misfit>
    ensures { IsTold (shape.traces_in count (view json.now)) result }
{
    match json.as_array() {
        Some(items) => all_traces(alloc, items.as_slice(), count),
        None => Err(here(alloc)),
    }
}

/// Each item as a trace.
fn all_traces(alloc: Global, items: &[Json], count: usize) -> Result<Row<Trace>, Misfit>
    ensures { IsTold (shape.traces_after count [] (items_view items.now)) result }
{
    let mut gathered = Gathered::new(alloc);
    for (place, item) in items.iter().enumerate() {
        let trace = in_item(alloc, place, trace_after(alloc, item, count, &gathered))?;
        gathered = gathered.with(alloc, trace)?;
    }
    Ok(gathered.traces)
}

/// The trace of an item, behind those that are gathered.
fn trace_after(alloc: Global, json: &Json, count: usize, before: &Gathered) -> Result<Trace, Misfit>
    ensures { IsTold (shape.trace_after count before.now.traces (view json.now)) result }
{
    if !is_list_of(json, 2) {
        return Err(here(alloc));
    }
    let path = path_at(alloc, json, before)?;
    let samples = samples_at(alloc, json, count)?;
    Ok(Trace { path, samples })
}

/// The path of a trace, of which no trace before is.
fn path_at(alloc: Global, json: &Json, before: &Gathered) -> Result<Path, Misfit>
    ensures { IsTold (at_item (shape.fresh_path before.now.traces) 0 (view json.now)) result }
{
    in_item(alloc, 0, if_fresh(alloc, json.get(0), before))
}

fn if_fresh(alloc: Global, json: Option<&Json>, before: &Gathered) -> Result<Path, Misfit>
    ensures { IsTold (if_there (shape.fresh_path before.now.traces) (option_map (λ v. view v.now) json.entry)) result }
{
    match json {
        Some(json) => fresh_path(alloc, json, before),
        None => Err(here(alloc)),
    }
}

fn fresh_path(alloc: Global, json: &Json, before: &Gathered) -> Result<Path, Misfit>
    ensures { IsTold (shape.fresh_path before.now.traces (view json.now)) result }
{
    let path = Path::from_json(alloc, json)?;
    if before.has(&path) {
        Err(here(alloc))
    } else {
        Ok(path)
    }
}

/// The samples of a trace: so many.
fn samples_at(alloc: Global, json: &Json, count: usize) -> Result<Row<Sample>, Misfit>
    ensures { IsTold (at_item (shape.samples_in count) 1 (view json.now)) result }
{
    in_item(alloc, 1, if_samples(alloc, json.get(1), count))
}

fn if_samples(alloc: Global, json: Option<&Json>, count: usize) -> Result<Row<Sample>, Misfit>
    ensures { IsTold (if_there (shape.samples_in count) (option_map (λ v. view v.now) json.entry)) result }
{
    match json {
        Some(json) => samples_in(alloc, json, count),
        None => Err(here(alloc)),
    }
}

fn samples_in(alloc: Global, json: &Json, count: usize) -> Result<Row<Sample>, Misfit>
    ensures { IsTold (shape.samples_in count (view json.now)) result }
{
    if is_list_of(json, count) {
        list_in::<Sample>(alloc, json)
    } else {
        Err(here(alloc))
    }
}

/// The recording, if there is no further key.
fn without_extra(alloc: Global, json: &Json, traces: Traces) -> Result<Traces, Misfit>
    ensures { IsTold (shape.without (shape.extra_key (view json.now)) traces) result }
{
    match extra_key(json) {
        Some(key) => in_key(alloc, key, Err(here(alloc))),
        None => Ok(traces),
    }
}

/// The least key that a recording doesn't have.
fn extra_key(json: &Json) -> Option<&str>
    ensures { option_map (λ key. key.now) result ≡ shape.extra_key (view json.now) }
{
    match json.as_object() {
        Some(members) => extra_of(members),
        None => None,
    }
}

fn extra_of(members: &Map<String, Json>) -> Option<&str>
    ensures { option_map (λ key. key.now) result ≡ find (λ key. not (shape.is_traces_key key)) (keys_in (members_view members.now.entries)) }
{
    match first_extra(members) {
        Some(key) => Some(key.as_str()),
        None => None,
    }
}

fn first_extra(members: &Map<String, Json>) -> Option<&String>
    ensures { option_copied result ≡ find (λ key. not (shape.is_traces_key (string_bytes key))) (keys members.now) }
{
    members.keys().find(|key| !is_traces_key(key.as_str()))
}

fn is_traces_key(key: &str) -> bool
    ensures { result ≡ shape.is_traces_key key.now }
{
    matches!(key, "end" | "form" | "traces")
}
