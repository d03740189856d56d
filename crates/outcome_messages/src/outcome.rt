use crate::causes::put_no_run;
use crate::imports::put_imports;
use crate::refuted::put_refuted;
use crate::undecided::put_undecided;
use message_parts::ClosedRules;
use outside_io::MemoryShelf;
use run_messages::{Asked, Command, asked_in, put_call, put_failed};
use std::alloc::{AllocError, Global};

/// More slots and rules than a scenario has of which the listing is made again for a message.
const MOST_ROWS: u64 = 100_000;

/// How a call ended.
#[derive(Clone, Copy)]
pub struct Outcome<'a> {
    /// The words of the call.
    pub words: &'a [String],
    /// The status with which it ended.
    pub number: u8,
    /// The first bytes that it wrote.
    pub note: &'a [u8],
    /// The rules that the lines of a record are closed by.
    pub closed: &'a ClosedRules,
    /// Whether standard output is a terminal.
    pub is_terminal: bool,
}

/// The words with which `flat` lists the rules of the record that a call wrote. `None` if it wrote none that refutes, or if
/// the listing would be long.
pub fn listing_words(
    alloc: Global,
    words: &[String],
    number: u8,
    note: &[u8],
) -> Result<Option<Vec<String>>, AllocError> {
    if number != 1 || !has_short_listing(note) {
        return Ok(None);
    }
    let asked = asked_in(alloc, words)?;
    let Some(asked) = asked else {
        return Ok(None);
    };
    if asked.command != Command::Generate {
        return Ok(None);
    }
    let setting = asked.setting;
    let mut words = Vec::new(alloc);
    for (option, number) in [
        ("--ticks", setting.ticks),
        ("--lanes", setting.lanes),
        ("--road", setting.road),
        ("--tick", setting.tick),
    ] {
        put_word(alloc, &mut words, option)?;
        words.push(format!(in alloc; "{number}")?)?;
    }
    put_word(alloc, &mut words, "--")?;
    put_word(alloc, &mut words, asked.source.file)?;
    put_word(alloc, &mut words, asked.source.scenario)?;
    words.insert(0, String::from_str(alloc, "flat")?)?;
    Ok(Some(words))
}

fn put_word(alloc: Global, words: &mut Vec<String>, word: &str) -> Result<(), AllocError> {
    words.push(String::from_str(alloc, word)?)?;
    Ok(())
}

/// Whether a record's first lines tell of few slots and rules.
fn has_short_listing(note: &[u8]) -> bool {
    let Ok(text) = str::from_utf8(note) else {
        return false;
    };
    let mut rows: u64 = 0;
    for line in text.lines().take(3) {
        if let Some((_, number)) = line.split_once(' ') {
            rows = rows.saturating_add(number.parse().unwrap_or(MOST_ROWS));
        }
    }
    text.starts_with("osc-refutation 1\n") && rows < MOST_ROWS
}

/// The message for a call that ended with an answer. It is empty if there is nothing to say.
///
/// `listing` is what `flat` writes of the scenario, and `kept` has the files that the call read.
pub fn outcome_message(
    alloc: Global,
    outcome: Outcome<'_>,
    listing: Option<&str>,
    kept: &mut MemoryShelf,
) -> Result<String, AllocError> {
    let mut text = String::new(alloc);
    let asked = asked_in(alloc, outcome.words)?;
    if outcome.number > 2 {
        return Ok(text);
    }
    match asked {
        Some(asked) => {
            put_imports(alloc, &mut text, asked.source.file, kept)?;
            put_answer(alloc, &mut text, &asked, outcome, listing, kept)?;
        }
        None => put_made(&mut text, outcome.number)?,
    }
    Ok(text)
}

/// Puts what there is to say of an answer.
fn put_answer(
    alloc: Global,
    text: &mut String,
    asked: &Asked<'_>,
    outcome: Outcome<'_>,
    listing: Option<&str>,
    kept: &mut MemoryShelf,
) -> Result<(), AllocError> {
    let line = first_line(outcome.note);
    match (asked.command, outcome.number) {
        (Command::Generate, 1) => {
            put_no_run(alloc, text, asked, listing, outcome.closed, kept)?;
            put_record(text, outcome, "shows it, and `osc verify` checks that")
        }
        (Command::Generate, 2) => {
            put_undecided(alloc, text, asked, outcome.words, kept)?;
            put_record(text, outcome, "says what was tried")
        }
        (Command::Check | Command::Export, 1) => put_failed(alloc, text, asked, line, kept),
        (Command::Verify, 1) => put_refuted(alloc, text, asked, line, kept),
        (Command::Verify, 2) => put_open(text, asked, line),
        _ => Ok(()),
    }
}

/// The first line of what was written, empty if it isn't UTF-8.
fn first_line(note: &[u8]) -> &str {
    match str::from_utf8(note) {
        Ok(text) => text.lines().next().unwrap_or(""),
        Err(_) => "",
    }
}

/// Puts what the record on standard output is for, and how it is kept.
fn put_record(text: &mut String, outcome: Outcome<'_>, what: &str) -> Result<(), AllocError> {
    if outcome.is_terminal {
        write!(text, "  = note: the record above {what}. To keep it: `")?;
        put_call(text, outcome.words)?;
        text.push_str(" > record.txt`\n")
    } else {
        write!(text, "  = note: the record on standard output {what}\n")
    }
}

/// Puts that a record leaves parts open.
fn put_open(text: &mut String, asked: &Asked<'_>, line: &str) -> Result<(), AllocError> {
    let cuts = line.strip_prefix("open ").unwrap_or("some");
    let (file, scenario) = (asked.file, asked.source.scenario);
    write!(
        text,
        "undecided: each line of the record in `{file}` is right, and after its {cuts} cuts `{scenario}` may still have\n"
    )?;
    text.push_str("a run\n")
}

/// Puts what there is to say of `make`.
fn put_made(text: &mut String, number: u8) -> Result<(), AllocError> {
    match number {
        1 => text.push_str(
            "no run: the made scenario has none in its setting, as the record on standard output shows\n",
        ),
        2 => text.push_str("undecided: after 200000 cuts the made scenario may still have a run\n"),
        _ => Ok(()),
    }
}
