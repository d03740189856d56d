//! Calls of `command` over a shelf and a sink in memory.

use osc_base::Row;
use outside_io::{MemoryShelf, MemorySink};
use scenario_tool::command;
use std::alloc::{AllocError, Global};

/// Which calls of the shelf and of the sink fail, how many bytes a call of the sink takes, and its room.
#[derive(Clone, Copy)]
pub struct Outside<'a> {
    pub shelf_failing: &'a [u64],
    pub sink_failing: &'a [u64],
    pub most: usize,
    pub room: usize,
}

/// No call fails, and a call of the sink takes all that a text of a few vehicles has.
pub const SOUND: Outside<'static> = Outside {
    shelf_failing: &[],
    sink_failing: &[],
    most: 4096,
    room: 1 << 20,
};

/// The status that `command` returns for the words, and what it writes, as one text.
pub fn answer(
    alloc: Global,
    words: &[&str],
    files: &[(&str, &[u8])],
    outside: Outside<'_>,
) -> Result<String, AllocError> {
    let mut owned = Vec::new(alloc);
    for word in words {
        owned.push(String::from_str(alloc, word)?)?;
    }
    let mut shelf = MemoryShelf::of(alloc, files, 4096, outside.shelf_failing)?;
    let failing = Row::of(Vec::from_slice(alloc, outside.sink_failing)?);
    let mut sink = MemorySink::new(alloc, outside.room, outside.most.max(1), failing)?;
    let status = command(alloc, &owned, &mut shelf, &mut sink);
    let written = str::from_utf8(sink.written()).unwrap_or("no text");
    format!(in alloc; "{status} {written}")
}
