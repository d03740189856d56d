//! Why a record isn't right, in words.

use message_parts::{bytes_of, source_of};
use outside_io::MemoryShelf;
use run_messages::Asked;
use std::alloc::{AllocError, Global};

/// Puts why a record isn't right, of the line `no LINE`.
pub fn put_refuted(
    alloc: Global,
    text: &mut String,
    asked: &Asked<'_>,
    line: &str,
    kept: &mut MemoryShelf,
) -> Result<(), AllocError> {
    let number = line.trim_end().strip_prefix("no ").unwrap_or("");
    let Ok(number) = number.parse::<usize>() else {
        return Ok(());
    };
    let (file, scenario) = (asked.file, asked.source.scenario);
    write!(
        text,
        "not right: line {number} of the record in `{file}` isn't accepted for `{scenario}`\n"
    )?;
    let bytes = source_of(alloc, file, kept)?;
    if let Some(written) = bytes_of(&bytes).and_then(|bytes| line_of(bytes, number)) {
        write!(text, "  = note: it is `{written}`\n")?;
    }
    if number <= 4 {
        text.push_str(
            "  = help: a record is of one source and one setting: give the `--ticks`, `--lanes`, `--road` and `--tick` with\n",
        )?;
        text.push_str("          which it was written\n")?;
    }
    Ok(())
}

/// A line of a text, counted from 1.
fn line_of(bytes: &[u8], number: usize) -> Option<&str> {
    let text = str::from_utf8(bytes).ok()?;
    text.lines().nth(number.checked_sub(1)?)
}
