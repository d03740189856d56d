//! A run from its text.

ghost use Rattle.std.specs.Prelude.{◌≡◌, codes, false, option_copied, option_map, find, not};
ghost use Rattle.std.specs.Option.{option_map_or};
ghost use Rattle.std.specs.BTreeMap.{keys};
ghost use Rattle.std.specs.String.{string_bytes};
ghost use Rattle.serde_json.specs.Find.{get};
ghost use Rattle.serde_json.specs.View.{view, members_view};
ghost use Rattle.run_texts.specs.RunReading.{IsTold, IsReading, IsJson, IsStopOf, IsShapeOf};
ghost use Rattle.run_texts.specs.RunShape as shape;

use crate::misfit::{Misfit, here, in_key};
use crate::shapes::{FromJson, key_at};
use crate::stop::RunStop;
use composition::{Choice, Run, Span, Trace, Value};
use osc_base::Row;
use serde_json::{Category, Error, Map, Value as Json};
use std::alloc::Global;

/// The run of a text. White space and the order of keys are free, and of equal keys the last counts.
///
/// `BadJson` comes exactly if the bytes aren't UTF-8 or are no JSON text. `BadShape` comes exactly if the JSON isn't of
/// a run's shape, with the pointer of the first place that differs: the keys in order, each list from its front, and
/// then the least key that a run doesn't have. A text whose `form` is 2 has the key `tick`, and is gone through by seven
/// keys; each other text by six. A run of form 1 has ticks of 100 milliseconds.
pub fn read_run(alloc: Global, bytes: &[u8]) -> Result<Run, RunStop>
    ensures { IsReading bytes.now result }
{
    let json = read_json(alloc, bytes)?;
    match Run::from_json(alloc, &json) {
        Ok(run) => Ok(run),
        Err(misfit) => Err(shape_of(misfit)),
    }
}

/// The JSON value of a text. `BadJson` comes exactly if the bytes aren't UTF-8 or are no JSON text.
pub fn read_json(alloc: Global, bytes: &[u8]) -> Result<Json, RunStop>
    ensures { IsJson bytes.now result }
{
    match Json::from_slice(alloc, bytes) {
        Ok(json) => Ok(json),
        Err(error) => Err(stop_of(&error)),
    }
}

/// Why the bytes give no JSON value.
fn stop_of(error: &Error) -> RunStop
    ensures { IsStopOf error.now result }
{
    match error.classify() {
        Category::Memory => RunStop::Memory,
        _ => RunStop::BadJson,
    }
}

/// Why the JSON value gives no run.
fn shape_of(misfit: Misfit) -> RunStop
    ensures { IsShapeOf misfit result }
{
    match misfit {
        Misfit::At(pointer) => RunStop::BadShape(pointer),
        Misfit::Memory => RunStop::Memory,
    }
}

impl FromJson for Run {
    ghost from_data = { shape.run_from };

    fn from_json(alloc: Global, json: &Json) -> Result<Run, Misfit> {
        run_in(alloc, json, form_of(json))
    }
}

/// The form of the value: 2 if its `form` is that number, else 1.
fn form_of(json: &Json) -> u32
    ensures { result ≡ shape.form_of (view json.now) }
{
    if tells_two(json) { 2 } else { 1 }
}

fn tells_two(json: &Json) -> bool
    ensures { result ≡ option_map_or shape.is_two (get (codes "form") (view json.now)) false }
{
    match json.get("form") {
        Some(form) => is_two(form),
        None => false,
    }
}

fn is_two(form: &Json) -> bool
    ensures { result ≡ shape.is_two (view form.now) }
{
    match form.as_u64() {
        Some(number) => number == 2,
        None => false,
    }
}

/// The run of the form.
fn run_in(alloc: Global, json: &Json, form: u32) -> Result<Run, Misfit>
    ensures { IsTold (shape.run_in form (view json.now)) result }
{
    let choices = key_at(alloc, json, "choices")?;
    let end = key_at(alloc, json, "end")?;
    number_at(alloc, json, "form", form, form)?;
    run_with(alloc, json, form, choices, end)
}

/// The run of the form with these choices and this end.
fn run_with(
    alloc: Global,
    json: &Json,
    form: u32,
    choices: Row<Choice>,
    end: u32,
) -> Result<Run, Misfit>
    ensures { IsTold (shape.run_with form choices end (view json.now)) result }
{
    let phases = key_at::<Row<Span>>(alloc, json, "phases")?;
    let tick = tick_of(alloc, json, form)?;
    let traces = key_at::<Row<Trace>>(alloc, json, "traces")?;
    let values = key_at::<Row<Value>>(alloc, json, "values")?;
    without_extra(
        alloc,
        json,
        form,
        Run {
            choices,
            end,
            phases,
            tick,
            traces,
            values,
        },
    )
}

/// The length of the ticks of a run of the form. Form 1 doesn't tell it, and has ticks of 100 milliseconds.
fn tick_of(alloc: Global, json: &Json, form: u32) -> Result<u32, Misfit>
    ensures { IsTold (shape.tick_of form (view json.now)) result }
{
    if form == 2 {
        number_at(alloc, json, "tick", 10, 1000)
    } else {
        Ok(100)
    }
}

/// The number at a key, which is from one number to another.
pub fn number_at(alloc: Global, json: &Json, key: &str, low: u32, high: u32) -> Result<u32, Misfit>
    ensures { IsTold (shape.key_at (shape.count_within low high) key.now (view json.now)) result }
{
    in_key(alloc, key, if_within(alloc, json.get(key), low, high))
}

fn if_within(alloc: Global, json: Option<&Json>, low: u32, high: u32) -> Result<u32, Misfit>
    ensures { IsTold (shape.if_there (shape.count_within low high) (option_map (λ v. view v.now) json.entry)) result }
{
    match json {
        Some(json) => within(alloc, json, low, high),
        None => Err(here(alloc)),
    }
}

fn within(alloc: Global, json: &Json, low: u32, high: u32) -> Result<u32, Misfit>
    ensures { IsTold (shape.count_within low high (view json.now)) result }
{
    let number = u32::from_json(alloc, json)?;
    if low <= number && number <= high {
        Ok(number)
    } else {
        Err(here(alloc))
    }
}

/// The run, if there is no further key.
fn without_extra(alloc: Global, json: &Json, form: u32, run: Run) -> Result<Run, Misfit>
    ensures { IsTold (shape.without (shape.extra_key form (view json.now)) run) result }
{
    match extra_key(json, form) {
        Some(key) => in_key(alloc, key, Err(here(alloc))),
        None => Ok(run),
    }
}

/// The least key that a run of the form doesn't have.
fn extra_key(json: &Json, form: u32) -> Option<&str>
    ensures { option_map (λ key. key.now) result ≡ shape.extra_key form (view json.now) }
{
    match json.as_object() {
        Some(members) => extra_of(members, form),
        None => None,
    }
}

fn extra_of(members: &Map<String, Json>, form: u32) -> Option<&str>
    ensures { option_map (λ key. key.now) result ≡ find (λ key. not (shape.is_run_key form key)) (shape.keys (members_view members.now.entries)) }
{
    match first_extra(members, form) {
        Some(key) => Some(key.as_str()),
        None => None,
    }
}

fn first_extra(members: &Map<String, Json>, form: u32) -> Option<&String>
    ensures { option_copied result ≡ find (λ key. not (shape.is_run_key form (string_bytes key))) (keys members.now) }
{
    members.keys().find(|key| !is_run_key(form, key.as_str()))
}

fn is_run_key(form: u32, key: &str) -> bool
    ensures { result ≡ shape.is_run_key form key.now }
{
    is_first_key(key) || (form == 2 && key == "tick")
}

fn is_first_key(key: &str) -> bool
    ensures { result ≡ shape.is_first_key key.now }
{
    matches!(
        key,
        "choices" | "end" | "form" | "phases" | "traces" | "values"
    )
}
