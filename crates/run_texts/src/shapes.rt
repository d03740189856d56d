//! What JSON values are read as: lists, what stands in lists and at keys, paths and numbers.

ghost use Rattle.std.specs.Prelude.{◌≡◌, None, IfOk, option_and_then, option_map};
ghost use Rattle.serde_json.specs.Data.{Data};
ghost use Rattle.serde_json.specs.Find.{as_str};
ghost use Rattle.serde_json.specs.View.{view, items_view};
ghost use Rattle.run_texts.specs.PathForms.{path_from};
ghost use Rattle.run_texts.specs.RunReading.{IsTold};
ghost use Rattle.run_texts.specs.RunShape as shape;

use crate::misfit::{Misfit, here, in_item, in_key};
use composition::Held;
use osc_base::{Path, Row, Text};
use serde_json::Value as Json;
use std::alloc::{AllocError, Global};

/// What a JSON value may be.
pub trait FromJson {
    ghost from_data: { Data → shape.Shaped Self };

    /// What the value is, or where it differs.
    fn from_json(alloc: Global, json: &Json) -> Result<Self, Misfit>
        ensures { IsTold (from_data (view json.now)) result };
}

/// What the value is, if there is one.
fn if_there<T: FromJson + Drop>(alloc: Global, json: Option<&Json>) -> Result<T, Misfit>
    ensures { IsTold (shape.if_there T.from_data (option_map (λ v. view v.now) json.entry)) result }
{
    match json {
        Some(json) => T::from_json(alloc, json),
        None => Err(here(alloc)),
    }
}

/// What stands in a list at a place.
pub fn item_at<T: FromJson + Drop>(alloc: Global, json: &Json, place: usize) -> Result<T, Misfit>
    ensures { IsTold (shape.item_at T.from_data place (view json.now)) result }
{
    in_item(alloc, place, if_there(alloc, json.get(place)))
}

/// What stands at a key.
pub fn key_at<T: FromJson + Drop>(alloc: Global, json: &Json, key: &str) -> Result<T, Misfit>
    ensures { IsTold (shape.key_at T.from_data key.now (view json.now)) result }
{
    in_key(alloc, key, if_there(alloc, json.get(key)))
}

/// The value is a list of so many items.
pub fn is_list_of(json: &Json, count: usize) -> bool
    ensures { result ≡ shape.is_list_of count (view json.now) }
{
    match json.as_array() {
        Some(items) => items.as_slice().len() == count,
        None => false,
    }
}

/// A list, each of whose items is a part.
pub fn list_in<T: FromJson + Drop>(alloc: Global, json: &Json) -> Result<Row<T>, Misfit>
    ensures { IsTold (shape.list_in T.from_data (view json.now)) result }
{
    match json.as_array() {
        Some(items) => all_in(alloc, items.as_slice()),
        None => Err(here(alloc)),
    }
}

/// Each item as a part.
fn all_in<T: FromJson + Drop>(alloc: Global, items: &[Json]) -> Result<Row<T>, Misfit>
    ensures { IsTold (shape.all_from T.from_data 0 (items_view items.now)) result }
{
    let mut parts = Row::new(alloc);
    for (place, item) in items.iter().enumerate() {
        let part = in_item(alloc, place, T::from_json(alloc, item))?;
        parts.push(part)?;
    }
    Ok(parts)
}

impl<T: FromJson + Drop> FromJson for Row<T> {
    ghost from_data = { shape.list_in T.from_data };

    fn from_json(alloc: Global, json: &Json) -> Result<Row<T>, Misfit> {
        list_in(alloc, json)
    }
}

impl FromJson for Path {
    ghost from_data = { shape.path_in };

    fn from_json(alloc: Global, json: &Json) -> Result<Path, Misfit> {
        match path_of(alloc, json)? {
            Some(path) => Ok(path),
            None => Err(here(alloc)),
        }
    }
}

fn path_of(alloc: Global, json: &Json) -> Result<Option<Path>, AllocError>
    ensures { IfOk result (λ r. r ≡ option_and_then path_from (as_str (view json.now))) }
{
    match json.as_str() {
        Some(text) => read_path(alloc, text),
        None => Ok(None),
    }
}

fn read_path(alloc: Global, text: &str) -> Result<Option<Path>, AllocError>
    ensures { IfOk result (λ r. r ≡ path_from text.now) }
{
    Path::read(alloc, text)
}

impl FromJson for u32 {
    ghost from_data = { shape.count_in };

    fn from_json(alloc: Global, json: &Json) -> Result<u32, Misfit> {
        match json.as_u64() {
            Some(number) => count_of(alloc, number),
            None => Err(here(alloc)),
        }
    }
}

fn count_of(alloc: Global, number: u64) -> Result<u32, Misfit>
    ensures { IsTold (shape.fits (shape.within_u32 number)) result }
{
    match u32::try_from(number) {
        Ok(count) => Ok(count),
        Err(_) => Err(here(alloc)),
    }
}

impl FromJson for i64 {
    ghost from_data = { shape.integer_in };

    fn from_json(alloc: Global, json: &Json) -> Result<i64, Misfit> {
        match json.as_i64() {
            Some(number) => Ok(number),
            None => Err(here(alloc)),
        }
    }
}

impl FromJson for Held {
    ghost from_data = { shape.held_in };

    fn from_json(alloc: Global, json: &Json) -> Result<Held, Misfit> {
        match json.as_i64() {
            Some(number) => Ok(Held::Number(number)),
            None => chars_of(alloc, json),
        }
    }
}

fn chars_of(alloc: Global, json: &Json) -> Result<Held, Misfit>
    ensures { IsTold (shape.fits (shape.held_of None (as_str (view json.now)))) result }
{
    match json.as_str() {
        Some(text) => Ok(Held::Chars(Text::copy(alloc, text)?)),
        None => Err(here(alloc)),
    }
}
