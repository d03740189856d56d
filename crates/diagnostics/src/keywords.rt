//! What is said of a word that is near a word of the language, where that one may stand.

use crate::expected::takes;
use mistake_cases::{Help, View, is_name, last_word, nearest_of};
use std::alloc::{AllocError, Global};

/// The words of the language that users misspell: those of three letters and more.
const WORDS: [&str; 28] = [
    "import",
    "type",
    "unit",
    "enum",
    "struct",
    "actor",
    "action",
    "scenario",
    "inherits",
    "extend",
    "list",
    "keep",
    "hard",
    "default",
    "remove_default",
    "serial",
    "parallel",
    "one_of",
    "wait",
    "elapsed",
    "with",
    "range",
    "and",
    "not",
    "true",
    "false",
    "factor",
    "offset",
];
/// The least length of a word for which a near one is told.
const SHORTEST: usize = 3;

/// A word of a source: where it begins, and how many tokens before the syntax fault.
#[derive(Clone, Copy)]
struct Word<'a> {
    source: &'a [u8],
    at: usize,
    back: u32,
    text: &'a str,
}

/// What is said of a syntax fault at a word, or right behind one, that is near a word of the language. `None` if no
/// such word may stand there.
pub fn keyword_help<'a>(
    alloc: Global,
    view: &View<'a>,
    source: &'a [u8],
) -> Result<Option<Help>, AllocError> {
    let here = view.above.len().saturating_add(view.before.len());
    let word = Word {
        source,
        at: here,
        back: 0,
        text: view.word(),
    };
    match near_word(alloc, word)? {
        Some(help) => Ok(Some(help)),
        None => near_word(alloc, word_before(view, source)),
    }
}

/// The word before the place, or before a colon there.
fn word_before<'a>(view: &View<'a>, source: &'a [u8]) -> Word<'a> {
    let before = view.before.trim_end();
    let (before, back) = match before.strip_suffix(':') {
        Some(before) => (before.trim_end(), 2),
        None => (before, 1),
    };
    let text = last_word(before);
    let end = view.above.len().saturating_add(before.len());
    Word {
        source,
        at: end.saturating_sub(text.len()),
        back,
        text,
    }
}

/// What is said of a word if it is near a word of the language that may stand there.
fn near_word(alloc: Global, word: Word<'_>) -> Result<Option<Help>, AllocError> {
    let Some(near) = nearest_keyword(alloc, word.text)? else {
        return Ok(None);
    };
    if !takes(alloc, word.source, word.at, word.back, near)? {
        return Ok(None);
    }
    let text = word.text;
    let text = if near.eq_ignore_ascii_case(text) {
        format!(in alloc; "The words of the language have small letters: `{near}`.\n")?
    } else {
        format!(in alloc; "A word near `{text}` is `{near}`.\n")?
    };
    Ok(Some(Help::of(text)))
}

/// The word of the language that is nearest to a word, which is none itself.
fn nearest_keyword(alloc: Global, word: &str) -> Result<Option<&'static str>, AllocError> {
    if !is_name(word) || word.len() < SHORTEST || WORDS.contains(&word) {
        return Ok(None);
    }
    match in_small_letters(word) {
        Some(near) => Ok(Some(near)),
        None => nearest_of(alloc, word, &WORDS),
    }
}

/// The word of the language that a word is but for capital letters.
fn in_small_letters(word: &str) -> Option<&'static str> {
    for known in &WORDS {
        if known.eq_ignore_ascii_case(word) {
            return Some(*known);
        }
    }
    None
}
