//! What the line says with which `osc` refuses.

use fault_texts::{Topic, topic_named};
use osc_base::FaultCode;

/// What a line with which `osc` refuses says.
#[derive(Debug, Clone, Copy)]
pub enum Told<'a> {
    /// `fault CODE FILE:LINE:COLUMN`
    Fault(Spot<'a>),
    /// `missing NAME`
    Missing(&'a str),
    /// `long NAME`
    Long(&'a str),
    /// `shelf NAME`
    Shelf(&'a str),
    /// `text json`, `text POINTER` or `text LINE`
    Text(&'a str),
    /// `words`
    Words,
    /// Another line, or none.
    Other,
}

/// A fault and its place: the line and the column, in bytes, count from 1.
#[derive(Debug, Clone, Copy)]
pub struct Spot<'a> {
    pub code: FaultCode,
    pub file: &'a str,
    pub line: u32,
    pub column: u32,
}

impl Spot<'_> {
    /// The place so many lines below and so many columns behind a column.
    pub fn moved(self, lines: usize, column: u32, columns: usize) -> Self {
        let lines = u32::try_from(lines).unwrap_or(0);
        let columns = u32::try_from(columns).unwrap_or(0);
        Spot {
            line: self.line.saturating_add(lines),
            column: column.saturating_add(columns),
            ..self
        }
    }
}

/// What a line says. A line feed at its end isn't looked at.
pub fn told_by(line: &str) -> Told<'_> {
    let line = line.strip_suffix('\n').unwrap_or(line);
    let Some((word, rest)) = line.split_once(' ') else {
        return if line == "words" {
            Told::Words
        } else {
            Told::Other
        };
    };
    match word {
        "fault" => match spot_in(rest) {
            Some(spot) => Told::Fault(spot),
            None => Told::Other,
        },
        "missing" => Told::Missing(rest),
        "long" => Told::Long(rest),
        "shelf" => Told::Shelf(rest),
        "text" => Told::Text(rest),
        _ => Told::Other,
    }
}

/// `CODE FILE:LINE:COLUMN`. The name of the file may have colons too.
fn spot_in(text: &str) -> Option<Spot<'_>> {
    let (number, rest) = text.split_once(' ')?;
    let Some(Topic::Fault(code)) = topic_named(number) else {
        return None;
    };
    let (rest, column) = rest.rsplit_once(':')?;
    let (file, line) = rest.rsplit_once(':')?;
    Some(Spot {
        code,
        file,
        line: line.parse().ok()?,
        column: column.parse().ok()?,
    })
}
