ghost use Rattle.std.specs.Prelude.{◌≡◌, List, IfOk, map};
ghost use Rattle.std.specs.String.{string_bytes};
ghost use Rattle.serde_json.specs.Data.{Data, array};
ghost use Rattle.serde_json.specs.View.{view, items_of};
ghost use Rattle.serde_json.specs.Written.{compact_text};
ghost use Rattle.run_check.specs.RunText.{run_data, run_text, choice_data, span_data, sample_data, trace_data, value_data};

use composition::{Choice, Held, Run, Span, Trace, Value};
use osc_base::{Path, Sample, Text};
use serde_json::{Value as Json, json};
use std::alloc::{AllocError, Global};

/// The text of a run, as `docs/FORMATS.md` describes it: a compact JSON object whose keys are in byte order, then a line
/// feed. Out of memory is the only error.
#[tactic(auto, unfolding(crate::specs::RunText::run_text))]
pub fn write_run(alloc: Global, run: &Run) -> Result<Text, AllocError>
    ensures { IfOk result (λ t. t ≡ run_text run.now) }
{
    let mut text = compact(alloc, run)?;
    text.push_str("\n")?;
    Ok(Text::of(text))
}

fn compact(alloc: Global, run: &Run) -> Result<String, AllocError>
    ensures { IfOk result (λ s. string_bytes s ≡ compact_text (run_data run.now)) }
{
    let json = run_json(alloc, run)?;
    json.to_string(alloc)
}

fn run_json(alloc: Global, run: &Run) -> Result<Json, AllocError>
    ensures { IfOk result (λ v. view v ≡ run_data run.now) }
{
    let choices = list_json(alloc, run.choices.as_slice())?;
    let phases = list_json(alloc, run.phases.as_slice())?;
    let traces = list_json(alloc, run.traces.as_slice())?;
    let values = list_json(alloc, run.values.as_slice())?;
    json!(in alloc; {
        "choices": choices,
        "end": run.end,
        "form": 2u32,
        "phases": phases,
        "tick": run.tick,
        "traces": traces,
        "values": values,
    })
}

/// A part of a run that stands in a list of its text.
trait ToJson {
    ghost as_data: { Self → Data };

    fn to_json(&self, alloc: Global) -> Result<Json, AllocError>
        ensures { IfOk result (λ v. view v ≡ as_data self.now) };
}

fn list_json<T: ToJson>(alloc: Global, parts: &[T]) -> Result<Json, AllocError>
    ensures { IfOk result (λ v. view v ≡ array (items_of (map T.as_data parts.now))) }
{
    let mut items = Vec::new(alloc);
    for part in parts {
        items.push(part.to_json(alloc)?)?;
    }
    Ok(Json::Array(items))
}

impl ToJson for Choice {
    ghost as_data = { choice_data };

    fn to_json(&self, alloc: Global) -> Result<Json, AllocError> {
        let path = self.path.text(alloc)?;
        json!(in alloc; [path.as_str(), self.member])
    }
}

impl ToJson for Span {
    ghost as_data = { span_data };

    fn to_json(&self, alloc: Global) -> Result<Json, AllocError> {
        let path = self.path.text(alloc)?;
        json!(in alloc; [path.as_str(), self.start, self.end])
    }
}

impl ToJson for Sample {
    ghost as_data = { sample_data };

    fn to_json(&self, alloc: Global) -> Result<Json, AllocError> {
        json!(in alloc; [self.lane, self.position, self.speed])
    }
}

impl ToJson for Trace {
    ghost as_data = { trace_data };

    fn to_json(&self, alloc: Global) -> Result<Json, AllocError> {
        let path = self.path.text(alloc)?;
        let samples = list_json(alloc, self.samples.as_slice())?;
        json!(in alloc; [path.as_str(), samples])
    }
}

impl ToJson for Value {
    ghost as_data = { value_data };

    fn to_json(&self, alloc: Global) -> Result<Json, AllocError> {
        let path = self.path.text(alloc)?;
        match &self.held {
            Held::Number(number) => json!(in alloc; [path.as_str(), *number]),
            Held::Chars(text) => json!(in alloc; [path.as_str(), text.as_str()]),
        }
    }
}
