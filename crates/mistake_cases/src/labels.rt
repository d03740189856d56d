//! Labels that stand twice.

use crate::form::Help;
use crate::text_parts::{first_part, first_word, indentation};
use crate::view::View;
use std::alloc::{AllocError, Global};

/// The words with which phases begin.
const PHASES: [&str; 4] = ["serial", "parallel", "one_of", "wait"];

/// What is said of a label whose name is declared before. `None` if no label stands at the place.
pub fn label_help(alloc: Global, view: &View<'_>) -> Result<Option<Help>, AllocError> {
    if !is_label(view) {
        return Ok(None);
    }
    let word = view.word();
    let mut text = match line_before(view) {
        Some(line) => format!(in alloc; "`{word}` stands in line {line} already. ")?,
        None => format!(in alloc; "`{word}` is declared in a base or an extension already. ")?,
    };
    write!(
        text,
        "Labels and fields of a scenario have different names: write `{word}2:` here.\n"
    )?;
    Ok(Some(Help::of(text)))
}

/// Whether the word at a place is a label: a phase stands behind its colon.
fn is_label(view: &View<'_>) -> bool {
    let Some(phase) = view.behind().strip_prefix(':') else {
        return false;
    };
    let phase = phase.trim_start();
    let path = first_part(phase);
    let behind = phase.get(path.len()..).unwrap_or("");
    PHASES.contains(&first_word(phase)) || behind.starts_with('(')
}

/// The nearest line above with the same name before a colon, in the declaration around the place. Lines count from 1.
fn line_before(view: &View<'_>) -> Option<usize> {
    let mut number = view.above.matches('\n').count();
    for line in view.above.rsplit('\n').skip(1) {
        if indentation(line) == 0 && !line.trim().is_empty() {
            return None;
        }
        if declares(line, view.word()) {
            return Some(number);
        }
        number = number.saturating_sub(1);
    }
    None
}

/// Whether a line begins with this name, alone or among others, and a colon.
fn declares(line: &str, word: &str) -> bool {
    match line.split_once(':') {
        Some((names, _)) => names.split(',').any(|name| name.trim() == word),
        None => false,
    }
}
