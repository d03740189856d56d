//! At which tick a modifier doesn't hold, what stands there and what it asks for.
//!
//! Only modifiers of the named scenario's own `do` are looked at, whose vehicle is a field of the scenario, and whose
//! value is a literal or a field of the scenario. Of all others nothing is told.

use crate::asked_value::{Ends, ends_in};
use crate::decimals::{put_decimal, put_tick};
use crate::run_parts::{Sample, sample_at, samples_of, span_of, tick_of, value_of};
use mistake_cases::{View, first_part, indentation, is_name, last_part};
use mistake_helps::{Argument, arguments_in};
use serde_json::Value;
use std::alloc::{AllocError, Global};

/// What a modifier looks at.
#[derive(Debug, Clone, Copy, PartialEq, Eq)]
enum Quantity {
    Speed,
    Lane,
    Position,
}

/// A modifier, as far as it can be told without the whole program.
#[derive(Debug, Clone, Copy)]
struct Modifier<'a> {
    quantity: Quantity,
    /// The name of the argument that names another vehicle, empty without one.
    relation: &'a str,
    vehicle: &'a str,
    other: &'a str,
    /// What is asked for: of a lane whole numbers, else thousandths.
    ends: Ends,
    moments: &'a str,
}

/// What doesn't hold of a modifier at a view, in a phase of a run. Empty if that isn't known.
pub fn wrong_modifier(
    alloc: Global,
    view: &View<'_>,
    run: &Value,
    phase: &str,
) -> Result<String, AllocError> {
    let mut text = String::new(alloc);
    let arguments = arguments_in(alloc, view.onward)?;
    let Some(modifier) = modifier_of(view, run, arguments.as_slice()) else {
        return Ok(text);
    };
    let Some((start, end)) = span_of(run, phase) else {
        return Ok(text);
    };
    let (first, last) = match modifier.moments {
        "start" => (start, start.saturating_add(1)),
        "end" => (end, end.saturating_add(1)),
        _ => (start, end),
    };
    for tick in first..last {
        if let Some(found) = wrong_at(run, &modifier, tick) {
            text.push_str("at ")?;
            put_tick(&mut text, u64::try_from(tick).unwrap_or(0), tick_of(run))?;
            put_wrong(&mut text, &modifier, found)?;
            return Ok(text);
        }
    }
    Ok(text)
}

fn modifier_of<'a>(
    view: &View<'a>,
    run: &Value,
    arguments: &[Argument<'a>],
) -> Option<Modifier<'a>> {
    let quantity = match view.word() {
        "speed" => Quantity::Speed,
        "lane" => Quantity::Lane,
        "position" => Quantity::Position,
        _ => return None,
    };
    let vehicle = vehicle_of(view)?;
    let mut modifier = Modifier {
        quantity,
        relation: "",
        vehicle,
        other: "",
        ends: Ends { low: 0, high: 0 },
        moments: "all",
    };
    for argument in arguments {
        match argument.name {
            "" => modifier.ends = ends_of(run, quantity, argument.value)?,
            "at" => modifier.moments = argument.value,
            name => {
                modifier.relation = name;
                modifier.other = argument.value;
            }
        }
    }
    Some(modifier)
}

/// What a value asks for: a literal, a range of literals, or a field of the scenario.
fn ends_of(run: &Value, quantity: Quantity, text: &str) -> Option<Ends> {
    if let Some(ends) = ends_in(text) {
        return if quantity == Quantity::Lane {
            whole_ends(ends)
        } else {
            Some(ends)
        };
    }
    if quantity == Quantity::Lane || !is_name(text) || first_part(text) != text {
        return None;
    }
    let number = value_of(run, text)?;
    Some(Ends {
        low: number,
        high: number,
    })
}

/// Ends in thousandths as whole numbers, if they are such.
fn whole_ends(ends: Ends) -> Option<Ends> {
    if ends.low % 1000 != 0 || ends.high % 1000 != 0 {
        return None;
    }
    Some(Ends {
        low: ends.low / 1000,
        high: ends.high / 1000,
    })
}

/// The vehicle of the invocation in whose block a line stands.
fn vehicle_of<'a>(view: &View<'a>) -> Option<&'a str> {
    let width = indentation(view.before);
    for line in view.above.rsplit('\n') {
        let is_head = !line.trim().is_empty() && indentation(line) < width;
        if is_head {
            let (head, _) = line.split_once(".drive(")?;
            let path = last_part(head);
            return if path.starts_with("actor") {
                None
            } else {
                Some(path)
            };
        }
    }
    None
}

/// The number that is asked for at a tick, if it isn't within what is asked for.
fn wrong_at(run: &Value, modifier: &Modifier<'_>, tick: i64) -> Option<i64> {
    let tick = usize::try_from(tick).ok()?;
    let own = sample_at(samples_of(run, modifier.vehicle)?, tick)?;
    let other = if modifier.relation.is_empty() {
        None
    } else {
        Some(sample_at(samples_of(run, modifier.other)?, tick)?)
    };
    let number = measured(modifier, own, other)?;
    let scale = if modifier.quantity == Quantity::Position {
        1000
    } else {
        1
    };
    let ends = modifier.ends;
    let is_within = ends.low.saturating_mul(scale) <= number
        && number <= ends.high.saturating_mul(scale);
    if is_within { None } else { Some(number) }
}

/// What a modifier measures: a difference to another vehicle if it names one. What is asked of `same_as`, `left_of` and
/// `right_of` is 0.
fn measured(modifier: &Modifier<'_>, own: Sample, other: Option<Sample>) -> Option<i64> {
    let mine = part_of(modifier.quantity, own);
    let Some(other) = other else {
        return Some(mine);
    };
    let theirs = part_of(modifier.quantity, other);
    let ahead = mine.saturating_sub(theirs);
    match modifier.relation {
        "faster_than" | "ahead_of" | "same_as" => Some(ahead),
        "slower_than" | "behind" => Some(theirs.saturating_sub(mine)),
        "left_of" => Some(ahead.saturating_sub(1)),
        "right_of" => Some(ahead.saturating_add(1)),
        _ => None,
    }
}

fn part_of(quantity: Quantity, sample: Sample) -> i64 {
    match quantity {
        Quantity::Speed => sample.speed,
        Quantity::Lane => sample.lane,
        Quantity::Position => sample.position,
    }
}

/// Puts what stands there, and what is asked for.
fn put_wrong(text: &mut String, modifier: &Modifier<'_>, found: i64) -> Result<(), AllocError> {
    let vehicle = modifier.vehicle;
    write!(text, " `{vehicle}` ")?;
    match modifier.relation {
        "same_as" | "left_of" | "right_of" => put_unlike(text, modifier, found),
        _ => {
            put_found(text, modifier, found)?;
            text.push_str(", and ")?;
            put_ends(text, modifier)?;
            text.push_str(" is asked for")
        }
    }
}

/// Puts that the vehicle isn't as another one, or beside it.
fn put_unlike(text: &mut String, modifier: &Modifier<'_>, found: i64) -> Result<(), AllocError> {
    let other = modifier.other;
    match (modifier.quantity, modifier.relation) {
        (Quantity::Lane, "left_of") => write!(text, "isn't on the lane left of `{other}`"),
        (Quantity::Lane, "right_of") => write!(text, "isn't on the lane right of `{other}`"),
        (Quantity::Lane, _) => write!(text, "isn't on the lane of `{other}`"),
        _ => {
            write!(
                text,
                "doesn't have the speed of `{other}`, but one that differs by "
            )?;
            put_decimal(text, found, 3)?;
            text.push_str(" m/s")
        }
    }
}

/// Puts what is measured.
fn put_found(text: &mut String, modifier: &Modifier<'_>, found: i64) -> Result<(), AllocError> {
    match modifier.quantity {
        Quantity::Lane => return write!(text, "is on lane {found}"),
        Quantity::Speed if modifier.relation.is_empty() => text.push_str("has a speed of ")?,
        _ => text.push_str("is ")?,
    }
    let places = if modifier.quantity == Quantity::Position {
        6
    } else {
        3
    };
    put_decimal(text, found, places)?;
    put_unit(text, modifier.quantity)?;
    put_relation(text, modifier)
}

fn put_unit(text: &mut String, quantity: Quantity) -> Result<(), AllocError> {
    match quantity {
        Quantity::Speed => text.push_str(" m/s"),
        Quantity::Position => text.push_str(" m"),
        Quantity::Lane => Ok(()),
    }
}

fn put_relation(text: &mut String, modifier: &Modifier<'_>) -> Result<(), AllocError> {
    let other = modifier.other;
    match modifier.relation {
        "faster_than" => write!(text, " faster than `{other}`"),
        "slower_than" => write!(text, " slower than `{other}`"),
        "ahead_of" => write!(text, " ahead of `{other}`"),
        "behind" => write!(text, " behind `{other}`"),
        _ => text.push_str(if modifier.quantity == Quantity::Position {
            " along the road"
        } else {
            ""
        }),
    }
}

fn put_ends(text: &mut String, modifier: &Modifier<'_>) -> Result<(), AllocError> {
    let Ends { low, high } = modifier.ends;
    let places = if modifier.quantity == Quantity::Lane {
        0
    } else {
        3
    };
    put_decimal(text, low, places)?;
    if low != high {
        text.push_str(" to ")?;
        put_decimal(text, high, places)?;
    }
    put_unit(text, modifier.quantity)
}
