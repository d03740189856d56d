//! Numbers that depend on all of an answer.

use box_eval::Point;
use seeded_search::{Line, Outcome, Record};

/// A sum that depends on a number too, and on all before it.
pub(crate) fn mixed(sum: u64, number: u64) -> u64 {
    sum.wrapping_mul(31).wrapping_add(number)
}

/// A number that depends on all of an answer.
pub(crate) fn of_outcome(outcome: &Outcome) -> u64 {
    match outcome {
        Outcome::Point(point) => of_point(point),
        Outcome::Refuted(record) | Outcome::Undecided(record) => of_record(record),
    }
}

fn of_point(point: &Point) -> u64 {
    let mut sum = 0;
    for value in point.values.as_slice() {
        sum = mixed(sum, value.unsigned_abs());
    }
    sum
}

fn of_record(record: &Record) -> u64 {
    let mut sum = u64::from(record.room);
    for line in record.lines.as_slice() {
        sum = with_line(sum, line);
    }
    for pick in record.picks.as_slice() {
        sum = mixed(mixed(sum, u64::from(pick.times)), u64::from(pick.rule));
    }
    sum
}

fn with_line(sum: u64, line: &Line) -> u64 {
    let (kind, number, value) = match line {
        Line::Low { slot, value } => (0, *slot, value.unsigned_abs()),
        Line::High { slot, value } => (1, *slot, value.unsigned_abs()),
        Line::Close { rule } => (2, *rule, 0),
        Line::Unknown => (3, 0, 0),
        Line::Sum { count } => (4, *count, 0),
    };
    mixed(mixed(mixed(sum, kind), u64::from(number)), value)
}
