use crate::brackets::bracket_help;
use crate::foreign_names::foreign_help;
use crate::form::{Case, Help, filled};
use crate::grammar_cases::GRAMMAR;
use crate::labels::label_help;
use crate::lexical_cases::LEXICAL;
use crate::meaning_cases::MEANING;
use crate::strings::string_help;
use crate::view::View;
use crate::word_cases::WORDS;
use osc_base::FaultCode;
use std::alloc::{AllocError, Global};

/// What is said of a fault by the text around it. `None` if no case is known that the fault is one of.
pub fn case_help(alloc: Global, view: &View<'_>) -> Result<Option<Help>, AllocError> {
    match foreign_help(alloc, view)? {
        Some(help) => Ok(Some(help)),
        None => tried_help(alloc, view),
    }
}

/// What is said by the tables, else by brackets, strings and labels.
fn tried_help(alloc: Global, view: &View<'_>) -> Result<Option<Help>, AllocError> {
    match row_help(alloc, view)? {
        Some(help) => Ok(Some(help)),
        None => mark_help(alloc, view),
    }
}

/// What is said of brackets, strings and labels.
fn mark_help(alloc: Global, view: &View<'_>) -> Result<Option<Help>, AllocError> {
    match view.code {
        FaultCode::Syntax => bracket_help(alloc, view),
        FaultCode::Text => string_help(alloc, view),
        FaultCode::Twice => label_help(alloc, view),
        _ => Ok(None),
    }
}

/// What is said by the first row of the tables that fits.
fn row_help(alloc: Global, view: &View<'_>) -> Result<Option<Help>, AllocError> {
    for table in [LEXICAL, GRAMMAR, WORDS, MEANING] {
        if let Some(case) = case_in(table, view) {
            return Ok(Some(Help::of(filled(alloc, case.text, view)?)));
        }
    }
    Ok(None)
}

fn case_in(table: &[Case], view: &View<'_>) -> Option<Case> {
    for case in table {
        if is_case(case, view) {
            return Some(*case);
        }
    }
    None
}

fn is_case(case: &Case, view: &View<'_>) -> bool {
    case.code == view.code && case.tests.iter().all(|test| test.holds(view))
}
