//! A line of a source as a terminal shows it.

ghost use Rattle.std.specs.Prelude.{◌≤◌, length, IfSome};

use std::alloc::{AllocError, Global};
use unicode_width::UnicodeWidthStr;

/// How many characters are shown on each side of the marked part.
const SIDE: usize = 60;
/// So many bytes have more characters than are shown on a side: a character has at most four, and three may be left of a
/// character that is cut.
const SIDE_BYTES: usize = 4 * (SIDE + 1);
/// What stands in place of what is cut away.
const CUT: &str = "...";
/// A tab as it is shown.
const TAB: &str = "    ";

/// A line of a source as it is shown, and where the part stands that is marked.
#[derive(Debug, Drop)]
pub struct Excerpt {
    /// The line: tabs are spaces, and what is no text or a control character is U+FFFD. It is cut if it is long.
    pub text: String,
    /// The columns before the marked part.
    pub before: usize,
    /// The columns of the marked part, at least 1.
    pub width: usize,
    /// The characters of the line before the marked part, and 1.
    pub column: usize,
}

/// The excerpt of the line at a place of a source. `None` if the source has no such line.
pub fn excerpt_at(
    alloc: Global,
    source: &[u8],
    line: u32,
    column: u32,
) -> Result<Option<Excerpt>, AllocError> {
    let Some(start) = line_start(source, line) else {
        return Ok(None);
    };
    let line = first_line(&source[start..]);
    let at = (column as usize).saturating_sub(1).min(line.len());
    let (before, after) = line.split_at(at);
    let (marked, rest) = after.split_at(marked_len(after));
    Ok(Some(joined(alloc, before, marked, rest)?))
}

/// Where the line of this number begins, counted from 1.
pub fn line_start(source: &[u8], number: u32) -> Option<usize>
    ensures { IfSome result (λ start. start ≤ length source.now) }
{
    if number <= 1 {
        return Some(0);
    }
    let mut line: u32 = 1;
    for (at, byte) in source.iter().enumerate() {
        if *byte == b'\n' {
            line = line.saturating_add(1);
            if line == number {
                return Some(at + 1);
            }
        }
    }
    None
}

/// The bytes before the first line end.
fn first_line(bytes: &[u8]) -> &[u8] {
    let line = match bytes.iter().position(|b| *b == b'\n') {
        Some(end) => &bytes[..end],
        None => bytes,
    };
    line.strip_suffix(b"\r").unwrap_or(line)
}

/// The length of the word that the bytes begin with.
fn word_len(bytes: &[u8]) -> usize {
    bytes
        .iter()
        .take_while(|b| b.is_ascii_alphanumeric() || **b == b'_')
        .count()
}

/// The length of the number that the bytes begin with, whose part before a point has this length. Else that length.
fn number_len(bytes: &[u8], whole: usize) -> usize {
    let is_number = matches!(bytes.first(), Some(b'0'..=b'9'));
    match bytes.get(whole..) {
        Some([b'.', rest @ ..]) if is_number && matches!(rest.first(), Some(b'0'..=b'9')) => {
            whole.saturating_add(1).saturating_add(word_len(rest))
        }
        _ => whole,
    }
}

/// The length of the word that the bytes begin with, else of the character there.
fn marked_len(bytes: &[u8]) -> usize
    ensures { result ≤ length bytes.now }
{
    let word = number_len(bytes, word_len(bytes));
    match bytes.first() {
        None => 0,
        Some(first) if word == 0 => character_len(*first).min(bytes.len()),
        Some(_) => word.min(bytes.len()),
    }
}

/// The length of the character that begins with this byte.
fn character_len(first: u8) -> usize {
    match first {
        0..=0xbf => 1,
        0xc0..=0xdf => 2,
        0xe0..=0xef => 3,
        _ => 4,
    }
}

fn joined(alloc: Global, before: &[u8], marked: &[u8], rest: &[u8]) -> Result<Excerpt, AllocError> {
    let raw = String::from_utf8_lossy(alloc, before)?;
    let column = raw.as_str().chars().count().saturating_add(1);
    let mut text = last_characters(alloc, shown(alloc, last_bytes(before))?.as_str())?;
    let before = text.as_str().width();
    let marked = shown(alloc, marked)?;
    text.push_str(marked.as_str())?;
    put_first_characters(&mut text, shown(alloc, first_bytes(rest))?.as_str())?;
    Ok(Excerpt {
        text,
        before,
        width: marked.as_str().width().max(1),
        column,
    })
}

/// The bytes in which the characters stand that are shown behind the marked part.
fn first_bytes(rest: &[u8]) -> &[u8] {
    rest.get(..SIDE_BYTES).unwrap_or(rest)
}

/// The bytes in which the characters stand that are shown before the marked part. They begin with a character.
fn last_bytes(before: &[u8]) -> &[u8] {
    let end = match before.len().checked_sub(SIDE_BYTES) {
        Some(start) => before.get(start..).unwrap_or(before),
        None => return before,
    };
    let left = end.iter().take(3).take_while(|b| is_later_byte(**b));
    end.get(left.count()..).unwrap_or(end)
}

/// Whether a byte isn't the first one of a character.
fn is_later_byte(byte: u8) -> bool {
    matches!(byte, 0x80..=0xbf)
}

/// Bytes as they are shown.
fn shown(alloc: Global, bytes: &[u8]) -> Result<String, AllocError> {
    let text = String::from_utf8_lossy(alloc, bytes)?;
    let mut shown = String::new(alloc);
    for c in text.as_str().chars() {
        put_shown(&mut shown, c)?;
    }
    Ok(shown)
}

fn put_shown(text: &mut String, c: char) -> Result<(), AllocError> {
    if c == '\t' {
        text.push_str(TAB)
    } else if c.is_control() {
        text.push('\u{fffd}')
    } else {
        text.push(c)
    }
}

/// The end of a text.
fn last_characters(alloc: Global, text: &str) -> Result<String, AllocError> {
    let count = text.chars().count();
    if count <= SIDE {
        return String::from_str(alloc, text);
    }
    let mut end = String::from_str(alloc, CUT)?;
    for c in text.chars().skip(count - SIDE) {
        end.push(c)?;
    }
    Ok(end)
}

/// Puts the beginning of a text after another one.
fn put_first_characters(text: &mut String, more: &str) -> Result<(), AllocError> {
    let mut left = SIDE;
    for c in more.chars() {
        if left == 0 {
            return text.push_str(CUT);
        }
        text.push(c)?;
        left -= 1;
    }
    Ok(())
}
