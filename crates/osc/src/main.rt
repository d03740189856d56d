//! The program `osc`: it hands its arguments, the files of the system and standard output to
//! `command`, and ends with the number that this returns. Then a message for people goes to standard
//! error. It is made of what was read and written: no file is read twice.
#![tactic(auto)]

use diagnostics::{
    FileShelf, MemoryShelf, MemorySink, NotedShelf, NotedSink, OutSink, Row, Status,
    refusal_message, status_message,
};
use outcome_messages::{Outcome, listing_words, outcome_message};
use scenario_tool::command;
use std::alloc::{AllocError, Global};
use std::io::IsTerminal;
use std::process::ExitCode;
use std::{env, io};

/// What is said when there is no memory for a message.
const NO_MESSAGE: &str = "error: out of memory, so there is no message\n";

/// The longest listing that a message is made of, in bytes.
const LISTING: usize = 16_777_216;

fn main(rt: HostRuntime) -> ExitCode {
    let words = match words(&rt) {
        Ok(words) => words,
        Err(error) if error.kind() == io::ErrorKind::OutOfMemory => {
            return without_words(&rt, Status::Memory);
        }
        Err(_) => return without_words(&rt, Status::Arguments),
    };
    let mut shelf = NotedShelf::new(rt.alloc(), FileShelf::new(&rt));
    let mut out = NotedSink::new(rt.alloc(), OutSink::new(&rt));
    let number = command(rt.alloc(), &words, &mut shelf, &mut out);
    let mut kept = shelf.into_kept();
    let outcome = Outcome {
        words: words.as_slice(),
        number,
        note: out.note(),
        closed: out.closed(),
        is_terminal: rt.stdout().is_terminal(),
    };
    tell(&rt, message(rt.alloc(), outcome, &mut kept));
    ExitCode::from(number)
}

/// The message for a call: why it was refused, else what there is to say of its answer.
fn message(
    alloc: Global,
    outcome: Outcome<'_>,
    kept: &mut MemoryShelf,
) -> Result<String, AllocError> {
    let (words, number, note) = (outcome.words, outcome.number, outcome.note);
    let refusal = refusal_message(alloc, words, number, note, kept)?;
    if !refusal.is_empty() {
        return Ok(refusal);
    }
    match listing_words(alloc, words, number, note)? {
        Some(words) => {
            let mut listing = MemorySink::new(alloc, LISTING, LISTING, Row::new(alloc))?;
            command(alloc, &words, kept, &mut listing);
            outcome_message(alloc, outcome, str::from_utf8(listing.written()).ok(), kept)
        }
        None => outcome_message(alloc, outcome, None, kept),
    }
}

/// The arguments after the program's name.
fn words(rt: &HostRuntime) -> io::Result<Vec<String>> {
    let mut words = Vec::new(rt.alloc());
    for word in env::args(rt)?.skip(1) {
        words.push(word)?;
    }
    Ok(words)
}

/// Ends a call whose arguments can't be collected, as when one isn't UTF-8. `command` never returns
/// the number of `Status::Arguments`.
fn without_words(rt: &HostRuntime, status: Status) -> ExitCode {
    tell(rt, status_message(rt.alloc(), status));
    ExitCode::from(status.number())
}

/// Writes a message to standard error. If that fails, nothing is told.
fn tell(rt: &HostRuntime, message: Result<String, AllocError>) {
    let _ = match message {
        Ok(text) => rt.eprint(text.as_str()),
        Err(AllocError) => rt.eprint(NO_MESSAGE),
    };
}
