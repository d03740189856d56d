//! Strings that don't end, and backslashes in them.

use crate::form::Help;
use crate::view::View;
use std::alloc::{AllocError, Global};

/// What is wrong with a string.
#[derive(Debug, Clone, Copy)]
enum Wrong {
    /// Its line ends before it does.
    Unclosed,
    /// A backslash stands before this character.
    Escape(char),
}

/// What is said of a quote with which no string begins. `None` if nothing is found wrong.
pub fn string_help(alloc: Global, view: &View<'_>) -> Result<Option<Help>, AllocError> {
    let rest = view.rest();
    let Some(quote) = rest.chars().next() else {
        return Ok(None);
    };
    let text = match wrong_in(rest.strip_prefix(quote).unwrap_or(""), quote) {
        Some(Wrong::Unclosed) => format!(in alloc;
            "This string isn't closed: write `{quote}` behind its last character, in the same line.\n"
        )?,
        Some(Wrong::Escape(c)) => format!(in alloc;
            "`\\{c}` is no escape: write `\\\\{c}` for a backslash and `{c}`. Of escapes there are only `\\\\`, `\\\"` and `\\'`.\n"
        )?,
        None => return Ok(None),
    };
    Ok(Some(Help::of(text)))
}

/// What is wrong first with the string that this quote has begun.
fn wrong_in(text: &str, quote: char) -> Option<Wrong> {
    let mut is_escaped = false;
    for c in text.chars() {
        if is_escaped {
            if !matches!(c, '\\' | '"' | '\'') {
                return Some(Wrong::Escape(c));
            }
            is_escaped = false;
        } else if c == quote {
            return None;
        } else {
            is_escaped = c == '\\';
        }
    }
    Some(Wrong::Unclosed)
}
