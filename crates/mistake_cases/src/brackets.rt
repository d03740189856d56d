//! Brackets that aren't closed, or that close none.

use crate::form::Help;
use crate::view::View;
use std::alloc::{AllocError, Global};

/// A bracket that is open at a place.
#[derive(Debug, Clone, Copy)]
struct Opened {
    bracket: char,
    /// Its line, counted from 1.
    line: u32,
}

/// What a walk over a line is in.
#[derive(Debug, Clone, Copy, PartialEq, Eq)]
enum Part {
    Code,
    Comment,
    /// A string that this quote ends.
    Chars(char),
    /// A string that this quote ends, behind a backslash.
    Escape(char),
}

/// What is said of the brackets around a place with which no file goes on. `None` if they don't explain it.
pub fn bracket_help(alloc: Global, view: &View<'_>) -> Result<Option<Help>, AllocError> {
    let found = view.onward.chars().next().filter(|c| is_closing(*c));
    match (opened_before(alloc, view)?, found) {
        (None, Some(found)) => {
            let text = format!(in alloc;
                "No bracket is open that this `{found}` closes: remove it, or write the bracket that opens.\n"
            )?;
            Ok(Some(Help::of(text)))
        }
        (Some(opened), Some(found)) if closing_of(opened.bracket) != found => unlike(alloc, opened),
        (Some(opened), None) if view.before.trim().is_empty() => unclosed(alloc, opened),
        _ => Ok(None),
    }
}

/// Another bracket than the one that closes `opened` stands at the place.
fn unlike(alloc: Global, opened: Opened) -> Result<Option<Help>, AllocError> {
    let (bracket, closing) = (opened.bracket, closing_of(opened.bracket));
    let text = format!(in alloc;
        "`{bracket}` isn't closed: write `{closing}` before this place.\n"
    )?;
    Ok(Some(Help::of(text)))
}

/// A line begins at the place, and the bracket is open.
fn unclosed(alloc: Global, opened: Opened) -> Result<Option<Help>, AllocError> {
    let (bracket, closing) = (opened.bracket, closing_of(opened.bracket));
    let line = opened.line;
    let text = format!(in alloc;
        "`{bracket}` in line {line} isn't closed: write `{closing}` there. Until a bracket is closed, all lines are one.\n"
    )?;
    Ok(Some(Help::of(text)))
}

/// The last bracket before a place that isn't closed there.
fn opened_before(alloc: Global, view: &View<'_>) -> Result<Option<Opened>, AllocError> {
    let mut open = Vec::new(alloc);
    let mut line: u32 = 1;
    for text in view.above.split('\n') {
        go_over(&mut open, text, line)?;
        line = line.saturating_add(1);
    }
    go_over(&mut open, view.before, line)?;
    Ok(open.as_slice().last().copied())
}

/// Goes over a line, or its first part: puts each bracket that it opens, and takes the last one off for each that it closes.
fn go_over(open: &mut Vec<Opened>, text: &str, line: u32) -> Result<(), AllocError> {
    let mut part = Part::Code;
    for c in text.chars() {
        if part == Part::Code && matches!(c, '(' | '[') {
            open.push(Opened { bracket: c, line })?;
        } else if part == Part::Code && is_closing(c) {
            let _closed = open.pop();
        }
        part = part_behind(part, c);
    }
    Ok(())
}

/// What a walk is in behind a character.
fn part_behind(part: Part, c: char) -> Part {
    match (part, c) {
        (Part::Code, '#') => Part::Comment,
        (Part::Code, '"' | '\'') => Part::Chars(c),
        (Part::Chars(quote), '\\') => Part::Escape(quote),
        (Part::Chars(quote), _) if c == quote => Part::Code,
        (Part::Escape(quote), _) => Part::Chars(quote),
        _ => part,
    }
}

fn is_closing(c: char) -> bool {
    matches!(c, ')' | ']')
}

fn closing_of(bracket: char) -> char {
    if bracket == '(' { ')' } else { ']' }
}
