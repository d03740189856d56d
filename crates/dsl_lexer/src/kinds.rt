//! Which token a text of a shape is. What is computed is a definition of `specs/Kinds.antt`.

ghost use Rattle.std.specs.Prelude.{◌≡◌, ◌+◌, ◌≤◌, ◌<◌, ◌^◌, ℕ, false, true, length, take, drop, codes, IfNone, IfSome, OnSome, IfOk};
ghost use Rattle.std.specs.List.{list_all};
ghost use Rattle.std.specs.Str.{IsUtf8, IsAscii, bytes_eq};
ghost use Rattle.std.specs.Char.{digit_value as digit_value_of};
ghost use Rattle.dsl_lexer.specs.Bytes as bytes;
ghost use Rattle.dsl_lexer.specs.Kinds as kinds;
ghost use Rattle.dsl_lexer.specs.Values.{value_from, Fits};

use crate::words::LanguageWord;
use crate::{scan, words};
use dsl_tree::TokenKind;
use osc_base::Text;
use std::alloc::{AllocError, Global};

/// The text with these bytes.
fn text_of(alloc: Global, bytes: &[u8]) -> Result<Text, AllocError>
    requires { IsUtf8 bytes.now }
    ensures { IfOk result (λ t. t ≡ bytes.now) }
{
    Text::copy(alloc, str::from_utf8(bytes).unwrap())
}

/// The token that a name or word is.
pub fn name_kind(alloc: Global, text: &[u8]) -> Result<TokenKind, AllocError>
    requires { IsUtf8 text.now }
    ensures { IfOk result (λ kind. kind ≡ kinds.name_kind text.now) }
{
    match words::word(text) {
        Some(LanguageWord::Reserved(word)) => Ok(TokenKind::Word(word)),
        Some(LanguageWord::LeftOut(word)) => Ok(TokenKind::LeftOut(word)),
        None => Ok(TokenKind::Name(text_of(alloc, text)?)),
    }
}

fn digit_value(b: u8) -> u64
    ensures { result ≡ digit_value_of b }
{
    if b < 48 {
        36
    } else if b < 58 {
        u64::from(b) - 48
    } else if b < 65 {
        36
    } else if b < 91 {
        u64::from(b) - 55
    } else if b < 97 {
        36
    } else if b < 123 {
        u64::from(b) - 87
    } else {
        36
    }
}

/// The number that `digits` stand for after those of `start`.
fn value(base: u64, start: u64, digits: &[u8]) -> u64
    requires { Fits base start digits.now }
    ensures { result ≡ value_from base start digits.now }
{
    let mut n = start;
    for b in digits {
        n = n * base + digit_value(*b);
    }
    n
}

fn is_hexadecimal_digit(b: u8) -> bool
    ensures { result ≡ bytes.is_hexadecimal_digit b }
{
    scan::is_digit(b) || (b'a' <= b && b <= b'f') || (b'A' <= b && b <= b'F')
}

fn are_hexadecimal_digits(digits: &[u8]) -> bool
    ensures { result ≡ list_all bytes.is_hexadecimal_digit digits.now }
{
    digits.iter().all(|b| is_hexadecimal_digit(*b))
}

/// The number of these digits after `0x`.
fn hexadecimal_kind(digits: &[u8]) -> Option<TokenKind>
    ensures { result ≡ kinds.hexadecimal_kind digits.now }
{
    if !are_hexadecimal_digits(digits) || digits.len() < 1 || digits.len() > 14 {
        return None;
    }
    Some(TokenKind::Number {
        digits: value(16, 0, digits),
        places: 0,
    })
}

/// The number of these digits before and after the point, with its unit.
fn decimal_kind(
    alloc: Global,
    whole: &[u8],
    part: &[u8],
    unit: &[u8],
) -> Result<Option<TokenKind>, AllocError>
    requires whole { list_all bytes.is_digit whole.now ≡ true }
    requires part { list_all bytes.is_digit part.now ≡ true }
    requires unit { IsUtf8 unit.now }
    ensures { IfOk result (λ kind. kind ≡ kinds.decimal_kind whole.now part.now unit.now) }
{
    if whole.len() > 18 || part.len() > 18 - whole.len() {
        return Ok(None);
    }
    let digits = value(10, value(10, 0, whole), part);
    let places = part.len() as u8;
    if unit.is_empty() {
        return Ok(Some(TokenKind::Number { digits, places }));
    }
    if words::is_word(unit) {
        return Ok(None);
    }
    let unit = text_of(alloc, unit)?;
    Ok(Some(TokenKind::Physical {
        digits,
        places,
        unit,
    }))
}

/// The digits after a point, and what stands after them.
fn fraction_and_unit(behind: &[u8]) -> (&[u8], &[u8])
    ensures part { result.0.now ≡ kinds.fraction behind.now }
    ensures unit { result.1.now ≡ kinds.unit_name behind.now }
{
    match behind {
        [b'.', more @ ..] => more.split_at(scan::digit_run(more)),
        _ => (&behind[..0], behind),
    }
}

/// What stands after `0x`, if a text begins with it.
fn hexadecimal_digits(text: &[u8]) -> Option<&[u8]>
    ensures none { IfNone result (bytes_eq (take 2 text.now) (codes "0x") ≡ false) }
    ensures zero { OnSome result (bytes_eq (take 2 text.now) (codes "0x") ≡ true) }
    ensures digits { IfSome result (λ digits. digits.now ≡ drop 2 text.now) }
{
    match text {
        [b'0', b'x', digits @ ..] => Some(digits),
        _ => None,
    }
}

/// The number or physical literal that a text of a number's shape is.
pub fn number_kind(alloc: Global, text: &[u8]) -> Result<Option<TokenKind>, AllocError>
    requires { IsAscii text.now }
    ensures { IfOk result (λ kind. kind ≡ kinds.number_kind text.now) }
{
    if let Some(digits) = hexadecimal_digits(text) {
        return Ok(hexadecimal_kind(digits));
    }
    let (whole, behind) = text.split_at(scan::digit_run(text));
    let (part, unit) = fraction_and_unit(behind);
    decimal_kind(alloc, whole, part, unit)
}

/// What stands between two quotes, with its escapes read.
fn unescaped(alloc: Global, inside: &[u8]) -> Result<Vec<u8>, AllocError>
    ensures { IfOk result (λ v. v.items ≡ kinds.unescaped false inside.now) }
{
    let mut read = Vec::with_capacity(alloc, inside.len())?;
    let mut escaped = false;
    for b in inside {
        if !escaped && *b == b'\\' {
            escaped = true;
        } else {
            read.push(*b)?;
            escaped = false;
        }
    }
    Ok(read)
}

/// The text of a string.
pub fn string_chars(alloc: Global, text: &[u8]) -> Result<Text, AllocError>
    requires quotes { 2 ≤ length text.now }
    requires utf8 { IsUtf8 (kinds.string_chars text.now) }
    ensures { IfOk result (λ chars. chars ≡ kinds.string_chars text.now) }
{
    let read = unescaped(alloc, &text[1..text.len() - 1])?;
    text_of(alloc, read.as_slice())
}
