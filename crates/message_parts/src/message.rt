//! The parts of a message, laid out line by line.

use crate::excerpt::{Excerpt, excerpt_at};
use crate::told::Spot;
use std::alloc::{AllocError, Global};

/// How many columns the numbers of lines take on the left.
pub fn gutter_of(line: u32) -> usize {
    let mut columns: usize = 1;
    let mut left = line / 10;
    for _digit in 0..9 {
        if left > 0 {
            columns = columns.saturating_add(1);
        }
        left /= 10;
    }
    columns
}

/// Puts the place, and the excerpt with a mark under the part that begins there.
pub fn put_site(
    alloc: Global,
    text: &mut String,
    gutter: usize,
    spot: &Spot<'_>,
    source: Option<&[u8]>,
    label: &str,
) -> Result<(), AllocError> {
    let found = match source {
        Some(source) => excerpt_at(alloc, source, spot.line, spot.column)?,
        None => None,
    };
    match found {
        Some(excerpt) => {
            put_place(text, gutter, spot, excerpt.column)?;
            put_excerpt(text, gutter, spot.line, &excerpt, label)
        }
        None => put_place(text, gutter, spot, spot.column as usize),
    }
}

fn put_place(
    text: &mut String,
    gutter: usize,
    spot: &Spot<'_>,
    column: usize,
) -> Result<(), AllocError> {
    let (file, line) = (spot.file, spot.line);
    put_times(text, ' ', gutter)?;
    write!(text, " --> {file}:{line}:{column}\n")
}

fn put_excerpt(
    text: &mut String,
    gutter: usize,
    line: u32,
    excerpt: &Excerpt,
    label: &str,
) -> Result<(), AllocError> {
    put_bar(text, gutter)?;
    put_numbered(text, gutter, line, excerpt.text.as_str())?;
    put_mark(text, gutter, excerpt, label)?;
    put_bar(text, gutter)
}

/// Puts a line with nothing but the bar on the left.
fn put_bar(text: &mut String, gutter: usize) -> Result<(), AllocError> {
    put_times(text, ' ', gutter)?;
    text.push_str("  |\n")
}

/// Puts a line of a source with its number.
fn put_numbered(
    text: &mut String,
    gutter: usize,
    line: u32,
    source: &str,
) -> Result<(), AllocError> {
    put_times(text, ' ', gutter.saturating_sub(gutter_of(line)))?;
    if source.is_empty() {
        return write!(text, " {line} |\n");
    }
    write!(text, " {line} | {source}\n")
}

/// Puts the mark under the excerpt, and what there is to say of the marked part.
fn put_mark(
    text: &mut String,
    gutter: usize,
    excerpt: &Excerpt,
    label: &str,
) -> Result<(), AllocError> {
    put_times(text, ' ', gutter)?;
    text.push_str("  | ")?;
    put_times(text, ' ', excerpt.before)?;
    put_times(text, '^', excerpt.width)?;
    if label.is_empty() {
        text.push_str("\n")
    } else {
        write!(text, " {label}\n")
    }
}

/// Puts help of one or more lines.
pub fn put_help(text: &mut String, gutter: usize, help: &str) -> Result<(), AllocError> {
    let mut is_first = true;
    for line in help.lines() {
        put_help_line(text, gutter, is_first, line)?;
        is_first = false;
    }
    Ok(())
}

/// Puts which page of `osc explain` tells more.
pub fn put_explain(text: &mut String, gutter: usize, number: u16) -> Result<(), AllocError> {
    put_times(text, ' ', gutter)?;
    write!(text, "  = help: `osc explain {number}` tells more\n")
}

fn put_help_line(
    text: &mut String,
    gutter: usize,
    is_first: bool,
    line: &str,
) -> Result<(), AllocError> {
    let head = if is_first { "= help: " } else { "        " };
    put_times(text, ' ', gutter)?;
    text.push_str("  ")?;
    text.push_str(head)?;
    put_line(text, line)
}

fn put_line(text: &mut String, line: &str) -> Result<(), AllocError> {
    text.push_str(line)?;
    text.push_str("\n")
}

/// Puts a character so many times.
fn put_times(text: &mut String, c: char, times: usize) -> Result<(), AllocError> {
    for _time in 0..times {
        text.push(c)?;
    }
    Ok(())
}
