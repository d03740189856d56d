//! The message for a fault of a source.

use crate::declared::earlier;
use crate::expected::expected;
use crate::keywords::keyword_help;
use crate::unknown::{scenario_help, unknown_help};
use dsl_tree::QName;
use fault_texts::fault_text;
use message_parts::{
    Spot, bytes_of, gutter_of, line_start, program_of, put_explain, put_help, put_site, source_in,
    source_of,
};
use mistake_cases::{Help, View};
use mistake_helps::{Declared, declared_names, mistake_help, type_around};
use name_scope::Program;
use osc_base::FaultCode;
use outside_io::MemoryShelf;
use std::alloc::{AllocError, Global};

/// A fault, the source in which it is, and the program of which that is a file.
#[derive(Clone, Copy)]
struct Found<'a> {
    spot: Spot<'a>,
    source: Option<&'a [u8]>,
    program: Option<&'a Program>,
}

/// The message for a fault of a source.
pub fn fault_message(
    alloc: Global,
    words: &[String],
    spot: Spot<'_>,
    kept: &mut MemoryShelf,
) -> Result<String, AllocError> {
    let bytes = source_of(alloc, spot.file, kept)?;
    let program = program_of(alloc, words, kept)?;
    let found = Found {
        spot,
        source: bytes_of(&bytes),
        program: program.as_ref(),
    };
    let mut text = head_of(alloc, spot.code)?;
    put_found(alloc, &mut text, words, found, kept)?;
    put_explain(&mut text, gutter_of(spot.line), spot.code.number())?;
    Ok(text)
}

fn head_of(alloc: Global, code: FaultCode) -> Result<String, AllocError> {
    let (number, title) = (code.number(), fault_text(code).title);
    format!(in alloc; "error[{number}]: {title}\n")
}

/// Puts the excerpt, and how to mend the fault.
fn put_found(
    alloc: Global,
    text: &mut String,
    words: &[String],
    found: Found<'_>,
    kept: &mut MemoryShelf,
) -> Result<(), AllocError> {
    let help = help_of(alloc, words, found)?;
    let spot = moved(found, help.as_ref());
    let label = label_of(alloc, found)?;
    let gutter = gutter_of(spot.line);
    put_site(alloc, text, gutter, &spot, found.source, label.as_str())?;
    if spot.code == FaultCode::Twice {
        put_earlier(alloc, text, found, kept)?;
    }
    put_cure(text, gutter, spot.code, help.as_ref())
}

fn put_cure(
    text: &mut String,
    gutter: usize,
    code: FaultCode,
    help: Option<&Help>,
) -> Result<(), AllocError> {
    match help {
        Some(help) => put_help(text, gutter, help.text.as_str()),
        None => put_help(text, gutter, fault_text(code).mending),
    }
}

/// The place to be marked: that of the part that is at fault.
fn moved<'a>(found: Found<'a>, help: Option<&Help>) -> Spot<'a> {
    let spot = found.spot;
    let (Some(view), Some(help)) = (view_of(found), help) else {
        return spot;
    };
    let passed = view.onward.get(..help.shift).unwrap_or("");
    match passed.rsplit_once('\n') {
        None => spot.moved(0, spot.column, passed.len()),
        Some((lines, last)) => {
            let count = lines.split('\n').count();
            spot.moved(count, 1, last.len())
        }
    }
}

fn view_of<'a>(found: Found<'a>) -> Option<View<'a>> {
    let source = found.source?;
    let start = line_start(source, found.spot.line)?;
    let at = start.saturating_add((found.spot.column as usize).saturating_sub(1));
    View::new(found.spot.code, source, start, at)
}

/// How to mend a fault, if more is known of it than its code.
fn help_of(alloc: Global, words: &[String], found: Found<'_>) -> Result<Option<Help>, AllocError> {
    let Some(view) = view_of(found) else {
        return Ok(None);
    };
    let names = names_of(alloc, found.program)?;
    let names = names.as_slice();
    let around = type_of(found);
    match mistake_help(alloc, &view, names, around)? {
        Some(help) => Ok(Some(help)),
        None => other_help(alloc, words, &view, names, found),
    }
}

/// The names that the program declares; none if it isn't known.
fn names_of<'a>(
    alloc: Global,
    program: Option<&'a Program>,
) -> Result<Vec<Declared<'a>>, AllocError> {
    match program {
        Some(program) => declared_names(alloc, program),
        None => Ok(Vec::new(alloc)),
    }
}

/// The name of the type around the fault.
fn type_of<'a>(found: Found<'a>) -> Option<&'a QName> {
    let program = found.program?;
    for number in 0..program.files() {
        if program.name(number) == Some(found.spot.file) {
            return type_around(program.file(number)?, found.spot.line);
        }
    }
    None
}

/// How to mend a fault that is no case of a table.
fn other_help<'a>(
    alloc: Global,
    words: &[String],
    view: &View<'a>,
    names: &[Declared<'a>],
    found: Found<'a>,
) -> Result<Option<Help>, AllocError> {
    match view.code {
        FaultCode::Unknown => unknown_help(alloc, view, names),
        FaultCode::NoScenario => none_named(alloc, words, found.program),
        FaultCode::Syntax => match found.source {
            Some(source) => keyword_help(alloc, view, source),
            None => Ok(None),
        },
        _ => Ok(None),
    }
}

/// How to mend that there is no scenario of the name that the words give.
fn none_named(
    alloc: Global,
    words: &[String],
    program: Option<&Program>,
) -> Result<Option<Help>, AllocError> {
    let Some(program) = program else {
        return Ok(None);
    };
    match source_in(alloc, words)? {
        Some(source) => scenario_help(alloc, program, source.scenario),
        None => Ok(None),
    }
}

/// What there is to say of the marked part of a source.
fn label_of(alloc: Global, found: Found<'_>) -> Result<String, AllocError> {
    let label = String::new(alloc);
    let Some(source) = found.source else {
        return Ok(label);
    };
    if found.spot.code != FaultCode::Syntax {
        return Ok(label);
    }
    let Some(start) = line_start(source, found.spot.line) else {
        return Ok(label);
    };
    let at = start.saturating_add((found.spot.column as usize).saturating_sub(1));
    expected(alloc, source, at)
}

/// Puts the place of the first declaration of a name that is declared again at the spot.
fn put_earlier(
    alloc: Global,
    text: &mut String,
    found: Found<'_>,
    kept: &mut MemoryShelf,
) -> Result<(), AllocError> {
    let Some(program) = found.program else {
        return Ok(());
    };
    let names = declared_names(alloc, program)?;
    let Some(first) = earlier(program, names.as_slice(), &found.spot) else {
        return Ok(());
    };
    let gutter = gutter_of(found.spot.line).max(gutter_of(first.line));
    let source = source_of(alloc, first.file, kept)?;
    let source = bytes_of(&source);
    put_site(
        alloc,
        text,
        gutter,
        &first,
        source,
        "the earlier declaration",
    )
}
