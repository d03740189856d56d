use crate::text_parts::{first_part, first_word, last_word};
use osc_base::FaultCode;

/// A fault, and the text around its place.
#[derive(Debug, Clone, Copy)]
pub struct View<'a> {
    pub code: FaultCode,
    /// The lines above that of the place.
    pub above: &'a str,
    /// The part of the line before the place.
    pub before: &'a str,
    /// The source from the place on.
    pub onward: &'a str,
}

impl<'a> View<'a> {
    /// A fault at the byte `at` of a source, in a line that begins at the byte `start`. `None` if the source isn't UTF-8,
    /// or if one of both lies in no text.
    pub fn new(code: FaultCode, source: &'a [u8], start: usize, at: usize) -> Option<View<'a>> {
        let text = str::from_utf8(source).ok()?;
        Some(View {
            code,
            above: text.get(..start)?,
            before: text.get(start..at)?,
            onward: text.get(at..)?,
        })
    }

    /// The part of the line from the place on.
    pub fn rest(&self) -> &'a str {
        let onward = self.onward;
        match onward.find('\n') {
            Some(end) => onward.get(..end).unwrap_or("").trim_end(),
            None => onward.trim_end(),
        }
    }

    /// The word at the place, empty if none stands there.
    pub fn word(&self) -> &'a str {
        first_word(self.onward)
    }

    /// The number with its unit, or the path, at the place. Empty if none stands there.
    pub fn number(&self) -> &'a str {
        first_part(self.onward)
    }

    /// What stands behind the word, in its line.
    pub fn behind(&self) -> &'a str {
        let rest = self.rest();
        rest.get(self.word().len()..).unwrap_or("").trim_start()
    }

    /// The word before the place, in its line.
    pub fn last(&self) -> &'a str {
        last_word(self.before)
    }

    /// The last line above with something else than white space and a comment.
    pub fn line_above(&self) -> &'a str {
        for line in self.above.rsplit('\n') {
            let text = line.trim();
            if !text.is_empty() && !text.starts_with('#') {
                return line.trim_end();
            }
        }
        ""
    }
}
