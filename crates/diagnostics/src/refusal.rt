//! The message for a call that was refused.

use crate::fault::fault_message;
use fault_texts::{Status, status_text};
use message_parts::{Told, put_explain, put_help, told_by, words_message};
use outside_io::MemoryShelf;
use std::alloc::{AllocError, Global};

/// The last status that is an answer to what was asked.
const LAST_ANSWER: u8 = 2;

/// The message for a call that ended with the status `number`, after it wrote `note` to standard output.
///
/// It is empty if nothing was refused. `kept` has the files that the call read; if the source of a fault isn't among them, the
/// message has no excerpt.
pub fn refusal_message(
    alloc: Global,
    words: &[String],
    number: u8,
    note: &[u8],
    kept: &mut MemoryShelf,
) -> Result<String, AllocError> {
    if number == Status::Sink.number() {
        return status_message(alloc, Status::Sink);
    }
    if number == Status::Memory.number() {
        return status_message(alloc, Status::Memory);
    }
    if number <= LAST_ANSWER {
        return Ok(String::new(alloc));
    }
    match str::from_utf8(note) {
        Ok(line) => line_message(alloc, words, line, kept),
        Err(_) => Ok(String::new(alloc)),
    }
}

/// The message for the line with which a call refused.
fn line_message(
    alloc: Global,
    words: &[String],
    line: &str,
    kept: &mut MemoryShelf,
) -> Result<String, AllocError> {
    match told_by(line) {
        Told::Fault(spot) => fault_message(alloc, words, spot, kept),
        Told::Missing(name) => file_message(alloc, "there is no file ", name),
        Told::Long(name) => file_message(
            alloc,
            "a source has at most 1048576 bytes, a run 16777216 and a record 268435456, unlike ",
            name,
        ),
        Told::Shelf(name) => file_message(alloc, "the system can't read ", name),
        Told::Text(what) => text_message(alloc, what),
        Told::Words => words_message(alloc, words),
        Told::Other => Ok(String::new(alloc)),
    }
}

/// The message for a status of which there is nothing more to say than its text.
pub fn status_message(alloc: Global, status: Status) -> Result<String, AllocError> {
    let title = status_text(status).title;
    let mut text = format!(in alloc; "error: {title}\n")?;
    put_status(&mut text, status)?;
    Ok(text)
}

/// The message for a file that can't be had.
fn file_message(alloc: Global, what: &str, name: &str) -> Result<String, AllocError> {
    let mut text = format!(in alloc; "error: {what}`{name}`\n")?;
    put_status(&mut text, Status::Shelf)?;
    Ok(text)
}

/// The message for a file that holds no run or no record. A run is no `json`, or differs at this JSON pointer; a record differs
/// in the line of this number.
fn text_message(alloc: Global, what: &str) -> Result<String, AllocError> {
    let mut text = if what == "json" {
        format!(in alloc; "error: the file of the run is no JSON text\n")?
    } else if what.parse::<u64>().is_ok() {
        format!(in alloc;
            "error: the file of the record holds none: line {what} isn't as in a record\n"
        )?
    } else {
        format!(in alloc; "error: the file of the run holds none: `{what}` isn't as in a run\n")?
    };
    put_status(&mut text, Status::Text)?;
    Ok(text)
}

/// Puts how to mend what a status says.
pub fn put_status(text: &mut String, status: Status) -> Result<(), AllocError> {
    put_help(text, 0, status_text(status).mending)?;
    put_explain(text, 0, u16::from(status.number()))
}
