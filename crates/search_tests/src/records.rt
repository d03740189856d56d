//! Answers of the search as text.
use box_eval::Point;
use seeded_search::{Line, Pick, Record};
use std::alloc::AllocError;
use std::fmt::Write;

/// The values of a point, each on a line.
pub(crate) fn write_point(text: &mut String, point: &Point) -> Result<(), AllocError> {
    writeln!(text, "point")?;
    for value in point.values.as_slice() {
        writeln!(text, "{value}")?;
    }
    Ok(())
}

/// A record's kind, numbers of slots, rules, room and lines, its first lines up to a number of them, and all of its picks.
pub(crate) fn write_record(
    text: &mut String,
    record: &Record,
    most: usize,
) -> Result<(), AllocError> {
    let kind = if record.undecided {
        "undecided"
    } else {
        "refuted"
    };
    let count = record.lines.as_slice().len();
    writeln!(
        text,
        "{kind} {} {} {} {count}",
        record.slots, record.rules, record.room
    )?;
    for line in record.lines.as_slice().iter().take(most) {
        write_line(text, line)?;
    }
    write_picks(text, record.picks.as_slice())
}

fn write_line(text: &mut String, line: &Line) -> Result<(), AllocError> {
    match line {
        Line::Low { slot, value } => writeln!(text, "low {slot} {value}"),
        Line::High { slot, value } => writeln!(text, "high {slot} {value}"),
        Line::Close { rule } => writeln!(text, "close {rule}"),
        Line::Sum { count } => writeln!(text, "sum {count}"),
        Line::Unknown => writeln!(text, "open"),
    }
}

fn write_picks(text: &mut String, picks: &[Pick]) -> Result<(), AllocError> {
    for pick in picks {
        writeln!(text, "{} of {}", pick.times, pick.rule)?;
    }
    Ok(())
}
