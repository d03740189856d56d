//! Which tokens may stand where no file goes on with the token that is there.
//!
//! It is asked of the parser: a token may stand there if the tokens before it and it begin some file. By the contract of
//! `parse` the first token with which no file goes on then comes later, or there is none.

use crate::candidates as kinds;
use crate::candidates::Candidate;
use program_load::dsl_lexer::{LexStop, lex};
use program_load::dsl_parser::{ParseStop, parse};
use std::alloc::{AllocError, Global};

/// The longest text before the place, in bytes: it is read once for each kind of token.
const BEFORE_LIMIT: usize = 32_768;
/// How much of the text behind the place is read first, in bytes.
const BEHIND: usize = 32_768;
/// How many names are written.
const NAMED: u32 = 8;
/// The longest source, in bytes.
const SOURCE_LIMIT: usize = 1_048_576;

/// The place of which is asked: the text before it, and the number of tokens there.
#[derive(Clone, Copy)]
struct Question<'a> {
    alloc: Global,
    before: &'a [u8],
    tokens: u32,
}

/// A list of names, written one after the other.
#[derive(Drop)]
struct Names {
    text: String,
    count: u32,
}

impl Names {
    /// Adds a name. Of many only the first are written.
    fn push(&mut self, name: &str) -> Result<(), AllocError> {
        self.count = self.count.saturating_add(1);
        if self.count > NAMED {
            return Ok(());
        }
        self.text
            .push_str(if self.count > 1 { ", " } else { "expected " })?;
        self.text.push_str(name)?;
        if self.count == NAMED {
            self.text.push_str(" or another token")?;
        }
        Ok(())
    }
}

/// Names the tokens that may stand after the first `at` bytes of a source, where it has its syntax fault.
///
/// The text is empty if the text before is long, or if the source has no syntax fault.
pub fn expected(alloc: Global, source: &[u8], at: usize) -> Result<String, AllocError> {
    let before = source.get(..at).unwrap_or(source);
    if before.len() > BEFORE_LIMIT {
        return Ok(String::new(alloc));
    }
    match first_dead_near(alloc, source, at)? {
        Read::Dead(tokens) => named(Question {
            alloc,
            before,
            tokens,
        }),
        Read::Whole | Read::Uncut => Ok(String::new(alloc)),
    }
}

/// Whether the token that a text makes may stand after the first `at` bytes of a source, so many tokens before its syntax
/// fault. False if the text before is long.
pub fn takes(
    alloc: Global,
    source: &[u8],
    at: usize,
    back: u32,
    text: &str,
) -> Result<bool, AllocError> {
    let before = source.get(..at).unwrap_or(source);
    if before.len() > BEFORE_LIMIT {
        return Ok(false);
    }
    match first_dead_near(alloc, source, at)? {
        Read::Dead(tokens) => {
            let tokens = tokens.saturating_sub(back);
            may_stand(
                Question {
                    alloc,
                    before,
                    tokens,
                },
                text,
            )
        }
        Read::Whole | Read::Uncut => Ok(false),
    }
}

/// The reading of a source whose syntax fault is at the byte `at`. Of a long source only a part is read, if that can be
/// cut into tokens: the fault is the same one.
fn first_dead_near(alloc: Global, source: &[u8], at: usize) -> Result<Read, AllocError> {
    let Some(near) = source.get(..at.saturating_add(BEHIND)) else {
        return first_dead(alloc, source);
    };
    match first_dead(alloc, near)? {
        Read::Uncut => first_dead(alloc, source),
        read => Ok(read),
    }
}

fn named(question: Question<'_>) -> Result<String, AllocError> {
    let mut names = Names {
        text: String::new(question.alloc),
        count: 0,
    };
    put_names(question, &mut names)?;
    if names.count == 0 && begins_line(question.before) {
        names.text.push_str("the line before opens no block")?;
    }
    Ok(names.text)
}

fn put_names(question: Question<'_>, names: &mut Names) -> Result<(), AllocError> {
    put_each(question, &kinds::CLOSING, names)?;
    put_layout(question, names)?;
    if may_all_stand(question, &kinds::OPERANDS)? {
        names.push("an expression")?;
        put_each(question, &kinds::KEEP_KINDS, names)
    } else {
        put_tokens(question, names)
    }
}

/// Names tokens of a place where no expression begins.
fn put_tokens(question: Question<'_>, names: &mut Names) -> Result<(), AllocError> {
    if may_all_stand(question, &kinds::OPERATORS)? {
        names.push("the rest of the expression")?;
    } else {
        put_words(question, names)?;
        put_marks(question, names)?;
    }
    put_each(question, &kinds::OTHERS, names)
}

/// Names single tokens that also stand in expressions.
fn put_marks(question: Question<'_>, names: &mut Names) -> Result<(), AllocError> {
    put_each(question, &kinds::OPERANDS, names)?;
    put_each(question, &kinds::OPERATORS, names)?;
    put_each(question, &kinds::RELATIONS, names)?;
    put_each(question, &kinds::CONNECTIVES, names)
}

fn put_words(question: Question<'_>, names: &mut Names) -> Result<(), AllocError> {
    put_first(question, &kinds::NAMES, names)?;
    put_first(question, &kinds::NUMBERS, names)
}

/// Names the end of the line, or a line that opens a block.
fn put_layout(question: Question<'_>, names: &mut Names) -> Result<(), AllocError> {
    let candidate = if begins_line(question.before) {
        kinds::BLOCK
    } else {
        kinds::LINE_END
    };
    if may_stand(question, candidate.text)? && !may_stand(question, "x")? {
        names.push(candidate.name)?;
    }
    Ok(())
}

/// Names each candidate that may stand there.
fn put_each(
    question: Question<'_>,
    candidates: &[Candidate],
    names: &mut Names,
) -> Result<(), AllocError> {
    for candidate in candidates {
        if may_stand(question, candidate.text)? {
            names.push(candidate.name)?;
        }
    }
    Ok(())
}

/// Names the first candidate that may stand there.
fn put_first(
    question: Question<'_>,
    candidates: &[Candidate],
    names: &mut Names,
) -> Result<(), AllocError> {
    for candidate in candidates {
        if may_stand(question, candidate.text)? {
            names.push(candidate.name)?;
            return Ok(());
        }
    }
    Ok(())
}

fn may_all_stand(question: Question<'_>, candidates: &[Candidate]) -> Result<bool, AllocError> {
    for candidate in candidates {
        if !may_stand(question, candidate.text)? {
            return Ok(false);
        }
    }
    Ok(true)
}

/// Whether a token may stand at the place, of which the lexer makes this text.
fn may_stand(question: Question<'_>, text: &str) -> Result<bool, AllocError> {
    let mut source = Vec::from_slice(question.alloc, question.before)?;
    if !begins_line(question.before) {
        source.push(b' ')?;
    }
    source.extend_from_slice(text.as_bytes())?;
    match first_dead(question.alloc, source.as_slice())? {
        Read::Whole => Ok(true),
        Read::Dead(tokens) => Ok(tokens > question.tokens),
        Read::Uncut => Ok(false),
    }
}

/// Whether nothing but spaces stands after the last line feed.
fn begins_line(before: &[u8]) -> bool {
    match before.iter().rev().find(|b| **b != b' ') {
        Some(byte) => *byte == b'\n',
        None => true,
    }
}

/// What a reading of a source gives.
#[derive(Clone, Copy)]
enum Read {
    /// A tree.
    Whole,
    /// A token with which no file goes on, after so many others.
    Dead(u32),
    /// No tokens.
    Uncut,
}

fn first_dead(alloc: Global, source: &[u8]) -> Result<Read, AllocError> {
    if source.len() > SOURCE_LIMIT {
        return Ok(Read::Uncut);
    }
    let tokens = match lex(alloc, 0, source) {
        Ok(tokens) => tokens,
        Err(LexStop::At(_)) => return Ok(Read::Uncut),
        Err(LexStop::Memory) => return Err(AllocError),
    };
    match parse(alloc, &tokens) {
        Ok(_) => Ok(Read::Whole),
        Err(ParseStop::At(fault)) => Ok(Read::Dead(fault.place.token)),
        Err(ParseStop::Memory) => Err(AllocError),
    }
}
