//! Calls of `command` as the program makes them, over a shelf and a sink in memory.

use diagnostics::refusal_message;
use message_parts::{NotedShelf, NotedSink};
use osc_base::Row;
use outside_io::{MemoryShelf, MemorySink, Shelf};
use scenario_tool::command;
use std::alloc::{AllocError, AllocGlobal, Global};
use std::process::Abort;
use std::test::Fail;

/// Files by their names.
pub type Files<'a> = &'a [(&'a str, &'a [u8])];

/// How a call went.
#[derive(Drop)]
pub struct Called {
    pub status: u8,
    /// What standard output got.
    pub written: String,
    /// What standard error got.
    pub message: String,
}

/// Calls `command`, and makes the message for it.
pub fn call(alloc: Global, words: &[&str], files: Files<'_>) -> Result<Called, AllocError> {
    call_failing(alloc, words, files, &[], 8192)
}

/// Calls `command` over a shelf whose calls of these numbers fail, and a sink with so much room.
pub fn call_failing(
    alloc: Global,
    words: &[&str],
    files: Files<'_>,
    failing: &[u64],
    room: usize,
) -> Result<Called, AllocError> {
    let shelf = MemoryShelf::of(alloc, files, 4096, failing)?;
    call_over(alloc, words, shelf, room)
}

/// Calls `command` over this shelf, and a sink with so much room.
pub fn call_over<H: Shelf + Drop>(
    alloc: Global,
    words: &[&str],
    shelf: H,
    room: usize,
) -> Result<Called, AllocError> {
    let words = owned(alloc, words)?;
    let mut shelf = NotedShelf::new(alloc, shelf);
    let sink = MemorySink::new(alloc, room, 4096, Row::new(alloc))?;
    let mut out = NotedSink::new(alloc, sink);
    let status = command(alloc, &words, &mut shelf, &mut out);
    let mut kept = shelf.into_kept();
    let message = refusal_message(alloc, words.as_slice(), status, out.note(), &mut kept)?;
    Ok(Called {
        status,
        written: String::from_utf8_lossy(alloc, out.note())?,
        message,
    })
}

/// The message for a call of `generate main.osc top` that wrote this line.
pub fn message_for(alloc: Global, line: &str, files: Files<'_>) -> Result<String, AllocError> {
    let words = owned(alloc, &["generate", "main.osc", "top"])?;
    let mut shelf = MemoryShelf::of(alloc, files, 4096, &[])?;
    refusal_message(alloc, words.as_slice(), 3, line.as_bytes(), &mut shelf)
}

/// Sees that a call has this status, and that its message begins and ends so.
pub fn call_says(
    rt: &(impl Abort + AllocGlobal),
    words: &[&str],
    files: Files<'_>,
    status: u8,
    front: &str,
    back: &str,
) -> Result<(), Fail> {
    let called = call(rt.alloc(), words, files)?;
    says(rt, &called, status, front, back);
    Ok(())
}

/// Sees that a call has this status, and that its message begins and ends so.
pub fn says(rt: &(impl Abort + AllocGlobal), called: &Called, status: u8, front: &str, back: &str) {
    let got = called.message.as_str();
    assert_eq!(rt; called.status, status, "{front}");
    assert_eq!(rt; got.get(..front.len()).unwrap_or(got), front);
    assert!(rt; got.ends_with(back), "{front}");
}

/// Sees that the message for a call that wrote this line has these parts.
pub fn message_has(
    rt: &(impl Abort + AllocGlobal),
    line: &str,
    files: Files<'_>,
    part: &str,
    other: &str,
) -> Result<(), Fail> {
    let message = message_for(rt.alloc(), line, files)?;
    assert!(rt; message.as_str().contains(part), "{line}");
    assert!(rt; message.as_str().contains(other), "{line}");
    Ok(())
}

fn owned(alloc: Global, words: &[&str]) -> Result<Vec<String>, AllocError> {
    let mut owned = Vec::new(alloc);
    for word in words {
        owned.push(String::from_str(alloc, word)?)?;
    }
    Ok(owned)
}
