//! The parts of a run, from JSON values.

use crate::misfit::{Misfit, here};
use crate::shapes::{FromJson, is_list_of, item_at};
use composition::{Choice, Span, Trace, Value};
use osc_base::Sample;
use serde_json::Value as Json;
use std::alloc::Global;

impl FromJson for Choice {
    ghost use Rattle.run_texts.specs.RunShape as shape;

    ghost from_data = { shape.choice_in };

    fn from_json(alloc: Global, json: &Json) -> Result<Choice, Misfit> {
        if !is_list_of(json, 2) {
            return Err(here(alloc));
        }
        let path = item_at(alloc, json, 0)?;
        let member = item_at(alloc, json, 1)?;
        Ok(Choice { path, member })
    }
}

impl FromJson for Span {
    ghost use Rattle.run_texts.specs.RunShape as shape;

    ghost from_data = { shape.span_in };

    fn from_json(alloc: Global, json: &Json) -> Result<Span, Misfit> {
        if !is_list_of(json, 3) {
            return Err(here(alloc));
        }
        let path = item_at(alloc, json, 0)?;
        let start = item_at(alloc, json, 1)?;
        let end = item_at(alloc, json, 2)?;
        Ok(Span { path, start, end })
    }
}

impl FromJson for Sample {
    ghost use Rattle.run_texts.specs.RunShape as shape;

    ghost from_data = { shape.sample_in };

    fn from_json(alloc: Global, json: &Json) -> Result<Sample, Misfit> {
        if !is_list_of(json, 3) {
            return Err(here(alloc));
        }
        let lane = item_at(alloc, json, 0)?;
        let position = item_at(alloc, json, 1)?;
        let speed = item_at(alloc, json, 2)?;
        Ok(Sample {
            lane,
            position,
            speed,
        })
    }
}

impl FromJson for Trace {
    ghost use Rattle.run_texts.specs.RunShape as shape;

    ghost from_data = { shape.trace_in };

    fn from_json(alloc: Global, json: &Json) -> Result<Trace, Misfit> {
        if !is_list_of(json, 2) {
            return Err(here(alloc));
        }
        let path = item_at(alloc, json, 0)?;
        let samples = item_at(alloc, json, 1)?;
        Ok(Trace { path, samples })
    }
}

impl FromJson for Value {
    ghost use Rattle.run_texts.specs.RunShape as shape;

    ghost from_data = { shape.value_in };

    fn from_json(alloc: Global, json: &Json) -> Result<Value, Misfit> {
        if !is_list_of(json, 2) {
            return Err(here(alloc));
        }
        let path = item_at(alloc, json, 0)?;
        let held = item_at(alloc, json, 1)?;
        Ok(Value { path, held })
    }
}
