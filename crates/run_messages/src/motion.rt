//! What a vehicle does that it may not.

use crate::decimals::{put_decimal, put_tick};
use crate::run_parts::{Sample, sample_at, samples_of, tick_of, value_of};
use serde_json::Value;
use std::alloc::{AllocError, Global};

/// The most ticks of a run that are looked at.
const TICKS: usize = 601;

/// The limits of a vehicle, in millimetres a second and for each second, and the length of a tick in milliseconds. In a tick a
/// vehicle goes so many micrometres for each millimetre a second.
#[derive(Debug, Clone, Copy)]
struct Limits {
    speed: i64,
    acceleration: i64,
    tick: i64,
}

/// What a vehicle does wrong.
#[derive(Debug, Clone, Copy)]
enum Wrong {
    TooFast,
    Jumps,
    SkipsLanes,
    Accelerates,
}

/// The first tick at which a vehicle moves as it may not, in words. Empty if none is found.
pub fn wrong_motion(alloc: Global, run: &Value, path: &str) -> Result<String, AllocError> {
    let mut text = String::new(alloc);
    let Some(samples) = samples_of(run, path) else {
        return Ok(text);
    };
    let Some(limits) = limits_of(alloc, run, path)? else {
        return Ok(text);
    };
    for tick in 0..samples.len().min(TICKS) {
        if let Some((wrong, now, next)) = wrong_at(samples, tick, limits) {
            put_wrong(&mut text, path, tick, wrong, now, next, limits)?;
            return Ok(text);
        }
    }
    Ok(text)
}

fn limits_of(alloc: Global, run: &Value, path: &str) -> Result<Option<Limits>, AllocError> {
    let speed = format!(in alloc; "{path}.max_speed")?;
    let acceleration = format!(in alloc; "{path}.max_acceleration")?;
    let speed = value_of(run, speed.as_str());
    let acceleration = value_of(run, acceleration.as_str());
    match (speed, acceleration) {
        (Some(speed), Some(acceleration)) => Ok(Some(Limits {
            speed,
            acceleration,
            tick: tick_of(run),
        })),
        _ => Ok(None),
    }
}

/// What is wrong at a tick, the sample there and the next one.
fn wrong_at(samples: &[Value], tick: usize, limits: Limits) -> Option<(Wrong, Sample, Sample)> {
    let now = sample_at(samples, tick)?;
    if now.speed > limits.speed {
        return Some((Wrong::TooFast, now, now));
    }
    let next = sample_at(samples, tick.saturating_add(1))?;
    let way = now.speed.saturating_mul(limits.tick);
    let change = next.speed.saturating_sub(now.speed).saturating_abs();
    let wrong = if next.position.saturating_sub(now.position) != way {
        Wrong::Jumps
    } else if next.lane.saturating_sub(now.lane).saturating_abs() > 1 {
        Wrong::SkipsLanes
    } else if change.saturating_mul(1000) > limits.acceleration.saturating_mul(limits.tick) {
        Wrong::Accelerates
    } else {
        return None;
    };
    Some((wrong, now, next))
}

fn put_wrong(
    text: &mut String,
    path: &str,
    tick: usize,
    wrong: Wrong,
    now: Sample,
    next: Sample,
    limits: Limits,
) -> Result<(), AllocError> {
    text.push_str("at ")?;
    put_tick(text, u64::try_from(tick).unwrap_or(0), limits.tick)?;
    write!(text, " `{path}` ")?;
    match wrong {
        Wrong::TooFast => {
            text.push_str("has a speed of ")?;
            put_speed(text, now.speed)?;
            text.push_str(", and its `max_speed` is ")?;
            put_speed(text, limits.speed)
        }
        Wrong::Jumps => put_jump(text, now, next, limits),
        Wrong::SkipsLanes => {
            let (from, to) = (now.lane, next.lane);
            write!(
                text,
                "is on lane {from}, and a tick later on lane {to}: a lane at most is passed in a tick"
            )
        }
        Wrong::Accelerates => put_acceleration(text, now, next, limits),
    }
}

fn put_speed(text: &mut String, speed: i64) -> Result<(), AllocError> {
    put_decimal(text, speed, 3)?;
    text.push_str(" m/s")
}

fn put_jump(
    text: &mut String,
    now: Sample,
    next: Sample,
    limits: Limits,
) -> Result<(), AllocError> {
    text.push_str("is at ")?;
    put_decimal(text, now.position, 6)?;
    text.push_str(" m, and a tick later at ")?;
    put_decimal(text, next.position, 6)?;
    text.push_str(" m: with its speed of ")?;
    put_speed(text, now.speed)?;
    text.push_str(" it goes ")?;
    put_decimal(text, now.speed.saturating_mul(limits.tick), 6)?;
    text.push_str(" m in a tick")
}

fn put_acceleration(
    text: &mut String,
    now: Sample,
    next: Sample,
    limits: Limits,
) -> Result<(), AllocError> {
    text.push_str("has a speed of ")?;
    put_speed(text, now.speed)?;
    text.push_str(", and a tick later of ")?;
    put_speed(text, next.speed)?;
    text.push_str(": its `max_acceleration` of ")?;
    put_decimal(text, limits.acceleration, 3)?;
    text.push_str(" m/s2 allows a change of ")?;
    put_decimal(text, limits.acceleration.saturating_mul(limits.tick), 6)?;
    text.push_str(" m/s in a tick")
}
