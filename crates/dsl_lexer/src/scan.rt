//! How long the piece at the start of a slice is. The functions compute definitions of `specs/Scan.antt`.

ghost use Rattle.std.specs.Prelude.{◌≡◌, ◌+◌, ◌≤◌, ◌||◌, ◌<◌, length, not, false, ℕ, Option, IsTrue, IfSome};
ghost use Rattle.std.specs.List.{prefix_len};
ghost use Rattle.dsl_lexer.specs.Bytes as bytes;
ghost use Rattle.dsl_lexer.specs.Scan as scan;

use crate::shape::Shape;

pub fn is_digit(b: u8) -> bool
    ensures { result ≡ bytes.is_digit b }
{
    b'0' <= b && b <= b'9'
}

pub fn is_name_start(b: u8) -> bool
    ensures { result ≡ bytes.is_name_start b }
{
    (b'a' <= b && b <= b'z') || (b'A' <= b && b <= b'Z') || b == b'_'
}

pub fn is_name_byte(b: u8) -> bool
    ensures { result ≡ bytes.is_name_byte b }
{
    is_name_start(b) || is_digit(b)
}

pub fn is_quote(b: u8) -> bool
    ensures { result ≡ bytes.is_quote b }
{
    b == b'"' || b == b'\''
}

/// The shape of the pieces that begin with `b`.
pub fn first_shape(b: u8) -> Shape
    ensures { result ≡ scan.first_shape b }
{
    if is_name_start(b) {
        Shape::NameShape
    } else if b == b' ' {
        Shape::Space
    } else if is_digit(b) {
        Shape::NumberShape
    } else if b == b'\n' || b == b'\r' {
        Shape::LineEnd
    } else if is_quote(b) {
        Shape::StringShape
    } else if b == b'#' {
        Shape::Comment
    } else if b == b'\t' {
        Shape::Tab
    } else if b == b'\\' {
        Shape::Joint
    } else {
        Shape::MarkShape
    }
}

/// How many name characters stand at the start.
pub fn name_run(rest: &[u8]) -> usize
    ensures run { result ≡ scan.name_run rest.now }
    ensures within { result ≤ length rest.now }
{
    let mut n = 0;
    while n < rest.len() && is_name_byte(rest[n]) {
        n += 1;
    }
    n
}

/// How many digits stand at the start.
pub fn digit_run(rest: &[u8]) -> usize
    ensures run { result ≡ prefix_len bytes.is_digit rest.now }
    ensures within { result ≤ length rest.now }
{
    let mut n = 0;
    while n < rest.len() && is_digit(rest[n]) {
        n += 1;
    }
    n
}

/// How long the comment at the start is.
pub fn comment_len(rest: &[u8]) -> usize
    ensures run { result ≡ prefix_len (λ b. not (bytes.is_line_feed b)) rest.now }
    ensures within { result ≤ length rest.now }
{
    let mut n = 0;
    while n < rest.len() && rest[n] != b'\n' {
        n += 1;
    }
    n
}

#[tactic(auto, unfolding(crate::specs::Scan::line_end_len))]
pub fn line_end_len(rest: &[u8]) -> Option<usize>
    ensures value { result ≡ scan.line_end_len rest.now }
    ensures within { IfSome result (λ n. n ≤ length rest.now) }
{
    match rest {
        [b'\n', ..] => Some(1),
        [b'\r', b'\n', ..] => Some(2),
        _ => None,
    }
}

fn begins_fraction(rest: &[u8]) -> bool
    ensures value { result ≡ scan.begins_fraction rest.now }
    ensures long { IsTrue result → 2 ≤ length rest.now }
{
    match rest {
        [point, digit, ..] => *point == b'.' && is_digit(*digit),
        _ => false,
    }
}

/// How long the number at the start is, with the name characters directly after it.
#[tactic(auto, unfolding(crate::specs::Scan::number_len))]
pub fn number_len(rest: &[u8]) -> usize
    ensures value { result ≡ scan.number_len rest.now }
    ensures within { result ≤ length rest.now }
{
    let run = name_run(rest);
    if digit_run(rest) == run && begins_fraction(&rest[run..]) {
        run + 1 + name_run(&rest[run + 1..])
    } else {
        run
    }
}

/// How long the string at the start is after its opening quote, with the closing one.
pub fn closing(quote: u8, rest: &[u8]) -> Option<usize>
    ensures value { result ≡ scan.closing quote false rest.now }
    ensures within { IfSome result (λ n. n ≤ length rest.now) }
{
    let mut escaped = false;
    for i in 0..rest.len() {
        let b = rest[i];
        if escaped {
            if !is_escapable(b) {
                return None;
            }
            escaped = false;
        } else if b == b'\\' {
            escaped = true;
        } else if b == quote {
            return Some(i + 1);
        } else if b == b'\n' {
            return None;
        }
    }
    None
}

fn is_escapable(b: u8) -> bool
    ensures { result ≡ bytes.is_escapable b }
{
    is_quote(b) || b == b'\\'
}

/// Whether a control character begins with the first byte.
fn begins_control(b: u8, more: &[u8]) -> bool
    ensures { result ≡ bytes.begins_control b more.now }
{
    match more {
        [c, ..] => b < 32 || b == 127 || (b == 0xC2 && 0x80 <= *c && *c <= 0x9F),
        [] => b < 32 || b == 127,
    }
}

/// Where the first control character of a text stands.
pub fn control_at(text: &[u8]) -> Option<usize>
    ensures value { result ≡ scan.control_at text.now }
    ensures within { IfSome result (λ n. n < length text.now) }
{
    for i in 0..text.len() {
        if begins_control(text[i], &text[i + 1..]) {
            return Some(i);
        }
    }
    None
}
