//! Paths read from their texts.

ghost use Rattle.std.specs.Prelude.{◌≡◌, ◌≤◌, List, [], ◌∷◌, ℕ, Bool, None, false, true, length, IfOk, IfSome, MatchOption};
ghost use Rattle.std.specs.List.{list_all, prefix_len};
ghost use Rattle.osc_base.specs.PathTexts as texts;
ghost use Rattle.osc_base.specs.PathTexts.{HasText, BeginsWith, BeginsWithNone, Continues, before_member};
ghost use Rattle.osc_base.specs.declared.path.Path.{Path};

use crate::path::{Path, Step};
use crate::{Row, Text};
use std::alloc::{AllocError, Global};
use std::str;

/// A step that a text begins with, and what is left of the text after it.
#[derive(Drop)]
struct Front<'a> {
    step: Step,
    left: &'a [u8],
}

impl Path {
    /// The path that has this text. `None` if the text is no path's, or the root's.
    ///
    /// In a path that has a text the first step is a name, and a name is a letter or `_` and then letters, digits and
    /// `_`. A number after `do`, or after the number of a member, is that of a member; any other is an element's.
    pub fn read(alloc: Global, text: &str) -> Result<Option<Path>, AllocError>
        ensures found { IfOk result (λ r. IfSome r (λ p. HasText p text.now)) }
        ensures none { IfOk result (λ r. r ≡ None → (p : Path) → HasText p text.now → ⊥) }
    {
        match read_name(alloc, text.as_bytes())? {
            Some(first) => read_later(alloc, first),
            None => Ok(None),
        }
    }
}

/// The path whose first step was read, with the steps of the text that is left.
fn read_later(alloc: Global, first: Front<'_>) -> Result<Option<Path>, AllocError>
    ensures found { IfOk result (λ r. IfSome r (λ p. texts.Continues first.entry.step first.entry.left.now p)) }
    ensures none { IfOk result (λ r. r ≡ None → (p : Path) → texts.Continues first.entry.step first.entry.left.now p → ⊥) }
{
    let mut steps = Row::with_room(alloc, step_room(first.left))?;
    let mut of_member = is_before_member(&first.step);
    let mut left = first.left;
    steps.push(first.step)?;
    while !left.is_empty() {
        let Some(next) = read_step(alloc, of_member, left)? else {
            return Ok(None);
        };
        of_member = is_before_member(&next.step);
        left = next.left;
        steps.push(next.step)?;
    }
    Ok(Some(Path { steps }))
}

/// Room for a step and those of the text that is left: each begins with `.` or `[`.
fn step_room(left: &[u8]) -> usize {
    left.iter()
        .filter(|byte| matches!(**byte, b'.' | b'['))
        .count()
        .saturating_add(1)
}

/// A number after this step is that of a member.
fn is_before_member(step: &Step) -> bool
    ensures { result ≡ before_member step.now }
{
    match step {
        Step::Name(name) => name.as_str() == "do",
        Step::Index(_) => false,
        Step::Member(_) => true,
    }
}

/// The step that the text begins with, after other steps.
fn read_step<'a>(
    alloc: Global,
    of_member: bool,
    text: &'a [u8],
) -> Result<Option<Front<'a>>, AllocError>
    ensures { IfOk result (λ r. MatchOption r (BeginsWithNone of_member text.now) (λ x. BeginsWith of_member text.now x.step x.left.now)) }
{
    match text {
        [b'.', name @ ..] => read_name(alloc, name),
        [b'[', number @ ..] => Ok(read_number(of_member, number)),
        _ => Ok(None),
    }
}

/// The name that the text begins with.
fn read_name<'a>(alloc: Global, text: &'a [u8]) -> Result<Option<Front<'a>>, AllocError>
    ensures { IfOk result (λ r. (of_member : Bool) → MatchOption r (BeginsWithNone of_member (46 ∷ text.now)) (λ x. BeginsWith of_member (46 ∷ text.now) x.step x.left.now)) }
{
    let (name, left) = text.split_at(name_len(text));
    match as_name(name) {
        Some(name) => {
            let step = Step::Name(Text::copy(alloc, name)?);
            Ok(Some(Front { step, left }))
        }
        None => Ok(None),
    }
}

/// The number that the text begins with, up to a closing bracket.
fn read_number<'a>(of_member: bool, text: &'a [u8]) -> Option<Front<'a>>
    ensures { MatchOption result (BeginsWithNone of_member (91 ∷ text.now)) (λ x. BeginsWith of_member (91 ∷ text.now) x.step x.left.now) }
{
    let (digits, left) = text.split_at(digits_len(text));
    let number = as_number(digits)?;
    let left = after_bracket(left)?;
    Some(Front {
        step: number_step(of_member, number),
        left,
    })
}

fn number_step(of_member: bool, number: u32) -> Step
    ensures { result ≡ texts.number_step of_member number }
{
    if of_member {
        Step::Member(number)
    } else {
        Step::Index(number)
    }
}

/// What stands after the closing bracket that the text begins with.
fn after_bracket(text: &[u8]) -> Option<&[u8]>
    ensures { MatchOption result ((l : List ℕ) → text.now ≡ 93 ∷ l → ⊥) (λ l. text.now ≡ 93 ∷ l.now) }
{
    match text {
        [b']', later @ ..] => Some(later),
        _ => None,
    }
}

/// How many name characters the text begins with.
fn name_len(text: &[u8]) -> usize
    ensures run { result ≡ prefix_len texts.continues_name text.now }
    ensures within { result ≤ length text.now }
{
    text.iter()
        .take_while(|byte| continues_name(**byte))
        .count()
}

/// How many digits the text begins with.
fn digits_len(text: &[u8]) -> usize
    ensures run { result ≡ prefix_len texts.is_digit text.now }
    ensures within { result ≤ length text.now }
{
    text.iter().take_while(|byte| byte.is_ascii_digit()).count()
}

/// The text as a name, if it is one.
fn as_name(text: &[u8]) -> Option<&str>
    ensures { MatchOption result (texts.is_name text.now ≡ false) (λ name. (name.now ≡ text.now) × (texts.is_name text.now ≡ true)) }
{
    if is_name(text) {
        str::from_utf8(text).ok()
    } else {
        None
    }
}

fn is_name(text: &[u8]) -> bool
    ensures { result ≡ texts.is_name text.now }
{
    match text {
        [first, later @ ..] => begins_name(*first) && all_continue_names(later),
        [] => false,
    }
}

fn all_continue_names(text: &[u8]) -> bool
    ensures { result ≡ list_all texts.continues_name text.now }
{
    text.iter().all(|byte| continues_name(*byte))
}

fn begins_name(byte: u8) -> bool
    ensures { result ≡ texts.begins_name byte }
{
    byte.is_ascii_alphabetic() || byte == b'_'
}

fn continues_name(byte: u8) -> bool
    ensures { result ≡ texts.continues_name byte }
{
    begins_name(byte) || byte.is_ascii_digit()
}

/// The number that these digits are the decimal of.
fn as_number(digits: &[u8]) -> Option<u32>
    requires { list_all texts.is_digit digits.now ≡ true }
    ensures { MatchOption result (texts.IsNoNumber digits.now) (texts.IsNumber digits.now) }
{
    if has_leading_zero(digits) {
        return None;
    }
    match str::from_utf8(digits) {
        Ok(text) => text.parse::<u32>().ok(),
        Err(_) => None,
    }
}

fn has_leading_zero(digits: &[u8]) -> bool
    ensures { result ≡ texts.has_leading_zero digits.now }
{
    match digits {
        [b'0', _, ..] => true,
        _ => false,
    }
}
