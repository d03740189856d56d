//! What helps if a search is undecided.

use message_parts::{bytes_of, put_help, source_of};
use outside_io::MemoryShelf;
use run_messages::{Asked, put_call, put_setting};
use std::alloc::{AllocError, Global};

/// The most cuts of a search.
const MOST_CUTS: u32 = 1_000_000;
/// The most searches of a call.
const MOST_TRIES: u32 = 100;

/// Puts that nothing is decided, and what helps.
pub fn put_undecided(
    alloc: Global,
    text: &mut String,
    asked: &Asked<'_>,
    words: &[String],
    kept: &mut MemoryShelf,
) -> Result<(), AllocError> {
    let (file, cuts) = (asked.source.file, asked.cuts);
    put_what_was_tried(text, asked)?;
    put_setting(text, asked.setting)?;
    text.push_str("\n")?;
    put_more_tries(text, words, asked.tries)?;
    if drives_without_start(alloc, file, kept)? {
        put_help(
            text,
            0,
            "a start position helps: `position(100m, at: start)` in the first `drive` of one vehicle",
        )?;
    }
    if cuts < MOST_CUTS {
        write!(
            text,
            "  = help: more cuts help at times: `--cuts {MOST_CUTS}` are the most\n"
        )?;
    }
    Ok(())
}

/// Puts how many cuts, and of more searches than one how many searches, left the scenario undecided.
fn put_what_was_tried(text: &mut String, asked: &Asked<'_>) -> Result<(), AllocError> {
    let (cuts, tries) = (asked.cuts, asked.tries);
    text.push_str("undecided: ")?;
    if tries > 1 {
        write!(
            text,
            "{tries} searches (`--tries {tries}`) of {cuts} cuts each (`--cuts {cuts}`)"
        )?;
    } else {
        write!(text, "{cuts} cuts (`--cuts {cuts}`)")?;
    }
    let scenario = asked.source.scenario;
    write!(
        text,
        " found no run of `{scenario}`, and no proof that there is none,\n  within "
    )
}

/// Puts that more searches may help, with the call for ten if the words give no number of them.
fn put_more_tries(text: &mut String, words: &[String], tries: u32) -> Result<(), AllocError> {
    if tries >= MOST_TRIES {
        return text.push_str("  = help: other seeds may decide it: begin with another `--seed`\n");
    }
    if tries > 1 {
        return write!(
            text,
            "  = help: more seeds may decide it: `--tries {MOST_TRIES}` tries a hundred\n"
        );
    }
    text.push_str("  = help: another seed often decides it: `")?;
    if !words.iter().any(|word| ends_options(word.as_str())) {
        put_call(text, words)?;
        text.push_str(" ")?;
    }
    text.push_str("--tries 10` tries ten\n")
}

/// Whether no number of searches can be put behind a word: it gives one, or ends the options.
fn ends_options(word: &str) -> bool {
    word == "--" || word.starts_with("--tries")
}

/// Whether vehicles drive in a source, and no line of it says where one starts on the road.
fn drives_without_start(
    alloc: Global,
    file: &str,
    kept: &mut MemoryShelf,
) -> Result<bool, AllocError> {
    let bytes = source_of(alloc, file, kept)?;
    let Some(source) = bytes_of(&bytes) else {
        return Ok(false);
    };
    let Ok(source) = str::from_utf8(source) else {
        return Ok(false);
    };
    Ok(source.contains(".drive(") && !source.lines().any(is_start_position))
}

fn is_start_position(line: &str) -> bool {
    let line = line.trim_start();
    line.starts_with("position(")
        && line.contains("at: start")
        && !line.contains("behind:")
        && !line.contains("ahead_of:")
}
