//! The parts of a run, read from its text.

use serde_json::Value;

/// An item of a list of a run whose first part is this path.
pub fn item_of<'v>(run: &'v Value, list: &str, path: &str) -> Option<&'v [Value]> {
    let items = run.get(list)?.as_array()?;
    for item in items.as_slice() {
        let parts = item.as_array()?.as_slice();
        if parts.first()?.as_str()? == path {
            return Some(parts);
        }
    }
    None
}

/// A whole number among the parts of an item.
pub fn number_at(parts: &[Value], at: usize) -> Option<i64> {
    parts.get(at)?.as_i64()
}

/// The number of a field; thousandths of a `float` or a physical type's base unit.
pub fn value_of(run: &Value, path: &str) -> Option<i64> {
    number_at(item_of(run, "values", path)?, 1)
}

/// The ticks at which a phase starts and ends.
pub fn span_of(run: &Value, path: &str) -> Option<(i64, i64)> {
    let parts = item_of(run, "phases", path)?;
    Some((number_at(parts, 1)?, number_at(parts, 2)?))
}

/// The length of the run's ticks in milliseconds. Text of form 1 doesn't tell it, and has ticks of 100 milliseconds.
pub fn tick_of(run: &Value) -> i64 {
    run.get("tick").and_then(Value::as_i64).unwrap_or(100)
}

/// The tick at which the run ends.
pub fn end_of(run: &Value) -> Option<i64> {
    run.get("end")?.as_i64()
}

/// The samples of a vehicle, one for each tick.
pub fn samples_of<'v>(run: &'v Value, path: &str) -> Option<&'v [Value]> {
    Some(item_of(run, "traces", path)?.get(1)?.as_array()?.as_slice())
}

/// Where a vehicle is at a tick: the lane, the position in micrometres and the speed in millimetres a second.
#[derive(Debug, Clone, Copy, PartialEq, Eq)]
pub struct Sample {
    pub lane: i64,
    pub position: i64,
    pub speed: i64,
}

/// A sample of a vehicle.
pub fn sample_at(samples: &[Value], tick: usize) -> Option<Sample> {
    let parts = samples.get(tick)?.as_array()?.as_slice();
    Some(Sample {
        lane: number_at(parts, 0)?,
        position: number_at(parts, 1)?,
        speed: number_at(parts, 2)?,
    })
}
