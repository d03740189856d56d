use crate::text_parts::{
    digits_of, first_word, indentation, is_name, is_number, last_word, unit_of,
};
use crate::view::View;
use osc_base::FaultCode;
use std::alloc::{AllocError, Global};

/// What is said of a fault.
#[derive(Debug, Drop)]
pub struct Help {
    /// One or more lines.
    pub text: String,
    /// How many bytes behind the place of the fault the part stands that is at fault.
    pub shift: usize,
}

impl Help {
    /// A help for what stands at the place of the fault.
    pub fn of(text: String) -> Help {
        Help { text, shift: 0 }
    }
}

/// A test on the text at a place and around it.
#[derive(Debug, Clone, Copy)]
pub enum Test {
    /// The source goes on with this text.
    Begins(&'static str),
    /// The word at the place is one of these.
    Word(&'static [&'static str]),
    /// A name stands at the place, and no word of the language that joins operands.
    Name,
    /// A number or a bracket stands at the place.
    Operand,
    /// A relation stands at the place.
    Relation,
    /// The character at the place isn't ASCII.
    NotAscii,
    /// Nothing but a comment stands at the place or behind it, in its line.
    End,
    /// Behind the word at the place stands this text.
    Behind(&'static str),
    /// The text before the place ends with this one, but for white space.
    After(&'static str),
    /// The word before the place is one of these.
    AfterWord(&'static [&'static str]),
    /// A number stands before the place.
    AfterNumber,
    /// One name and no more stands before the place, in its line.
    AfterFirstName,
    /// A relation that isn't closed by a bracket, `and` or `or` stands before the place, in its line.
    AfterRelation,
    /// Nothing stands before the place, in its line.
    First,
    /// The text before the place has this text in it.
    Has(&'static str),
    /// The line's first word is one of these.
    LineWord(&'static [&'static str]),
    /// The line above ends with this text.
    Above(&'static str),
    /// The line above ends with another text than this one.
    NotAbove(&'static str),
    /// The line is indented more than the one above.
    Deeper,
    /// The line isn't indented more than the one above.
    NotDeeper,
}

/// Words that stand between operands, or close what is before them.
const JOINING: [&str; 6] = ["and", "or", "not", "in", "with", "is"];
/// The signs of relations.
const RELATIONS: [&str; 6] = ["==", "!=", "<=", ">=", "<", ">"];

impl Test {
    /// Whether the test holds.
    pub fn holds(self, view: &View<'_>) -> bool {
        match self {
            Test::Begins(text) => view.onward.starts_with(text),
            Test::Word(words) => words.contains(&view.word()),
            Test::Name => is_name(view.word()) && !JOINING.contains(&view.word()),
            Test::Operand => is_number(view.word()) || view.onward.starts_with('['),
            Test::Relation => begins_relation(view.onward),
            Test::NotAscii => view.onward.starts_with(|c: char| !c.is_ascii()),
            Test::End => is_end(view.rest()),
            Test::Behind(text) => view.behind().starts_with(text),
            Test::Above(text) => view.line_above().ends_with(text),
            Test::NotAbove(text) => !view.line_above().ends_with(text),
            Test::Deeper => is_deeper(view),
            Test::NotDeeper => !is_deeper(view),
            _ => self.holds_before(view.before),
        }
    }

    /// Whether a test on the text before the place holds.
    fn holds_before(self, before: &str) -> bool {
        match self {
            Test::After(text) => before.trim_end().ends_with(text),
            Test::AfterWord(words) => words.contains(&last_word(before)),
            Test::AfterNumber => is_number(last_word(before)),
            Test::AfterFirstName => is_name(before.trim())
                && first_word(before.trim()) == before.trim(),
            Test::AfterRelation => has_relation(open_part(before)),
            Test::First => before.trim().is_empty(),
            Test::Has(text) => before.contains(text),
            Test::LineWord(words) => words.contains(&first_word(before.trim_start())),
            _ => false,
        }
    }
}

/// Whether a line has nothing more but a comment.
fn is_end(rest: &str) -> bool {
    let rest = rest.trim_start();
    rest.is_empty() || rest.starts_with('#')
}

fn is_deeper(view: &View<'_>) -> bool {
    indentation(view.before) > indentation(view.line_above())
}

fn begins_relation(text: &str) -> bool {
    RELATIONS.iter().any(|sign| text.starts_with(*sign)) || first_word(text) == "in"
}

fn has_relation(text: &str) -> bool {
    RELATIONS.iter().any(|sign| text.contains(*sign)) || text.contains(" in ")
}

/// The end of a text from the last bracket, comma, `and`, `or` or `=>` on.
fn open_part(text: &str) -> &str {
    let part = after_last(after_last(after_last(text, "("), ")"), ",");
    after_last(after_last(after_last(part, " and "), " or "), "=>")
}

/// The end of a text behind the last mark of this kind. The whole text if it has none.
fn after_last<'a>(text: &'a str, mark: &str) -> &'a str {
    match text.rsplit_once(mark) {
        Some((_, end)) => end,
        None => text,
    }
}

/// A case: what is said of a fault of this code if all tests hold.
#[derive(Debug, Clone, Copy)]
pub struct Case {
    pub code: FaultCode,
    pub tests: &'static [Test],
    /// One or more lines, each ended by a line feed. In it `{word}` stands for the word at the place, `{last}` for the one
    /// before it, `{owner}` for the one before it and a point, `{rest}` for the rest of the line, `{number}` for the number at the place, `{unit}` for its unit, `{digits}` for what is before that, and `{lower}` for the
    /// word in small letters.
    pub text: &'static str,
}

/// Rows of a table of cases: the code, the tests, and the lines of the text.
macro_rules! cases {
    ($(($code:ident, [$($test:expr),* $(,)?], $($line:literal),+ $(,)?)),* $(,)?) => {
        &[$(Case {
            code: FaultCode::$code,
            tests: &[$($test),*],
            text: concat!($($line, "\n"),+),
        }),*]
    };
}

pub(crate) use cases;

/// The text of a case, filled with the words of a place.
pub fn filled(alloc: Global, text: &str, view: &View<'_>) -> Result<String, AllocError> {
    let mut filled = String::new(alloc);
    let mut parts = text.split('{');
    filled.push_str(parts.next().unwrap_or(""))?;
    for part in parts {
        put_part(&mut filled, part, view)?;
    }
    Ok(filled)
}

/// Puts `NAME}` and the text behind it, with what the name stands for.
fn put_part(text: &mut String, part: &str, view: &View<'_>) -> Result<(), AllocError> {
    match part.split_once('}') {
        Some((name, later)) => {
            put_filler(text, name, view)?;
            text.push_str(later)
        }
        None => text.push_str(part),
    }
}

fn put_filler(text: &mut String, name: &str, view: &View<'_>) -> Result<(), AllocError> {
    match name {
        "word" => text.push_str(view.word()),
        "last" => text.push_str(view.last()),
        "owner" => text.push_str(last_word(view.before.trim_end_matches('.'))),
        "rest" => text.push_str(view.rest()),
        "lower" => put_lower(text, view.word()),
        "number" => text.push_str(view.number()),
        "unit" => text.push_str(unit_of(view.number())),
        "digits" => text.push_str(digits_of(view.number())),
        _ => Ok(()),
    }
}

fn put_lower(text: &mut String, word: &str) -> Result<(), AllocError> {
    for c in word.chars() {
        text.push(c.to_ascii_lowercase())?;
    }
    Ok(())
}
