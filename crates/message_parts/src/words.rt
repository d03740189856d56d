//! The message for words that are refused.
//!
//! It is asked of `read_words` which word is the first to be refused: words after which `--help` is taken have no fault yet.

use crate::message::{put_explain, put_help};
use command_words::{
    Request, check_help, export_help, flat_help, general_help, generate_help, make_help,
    migrate_help, read_words, verify_help,
};
use fault_texts::{Status, Topic, topic_named};
use mistake_cases::Nearest;
use std::alloc::{AllocError, Global};

/// The most words that are looked at.
const WORDS: usize = 100;
/// The option of `export` that must be given.
const FORM: &str = "--as";
/// First words that ask for something.
const COMMANDS: [&str; 11] = [
    "generate",
    "check",
    "export",
    "verify",
    "flat",
    "make",
    "migrate",
    "explain",
    "help",
    "--help",
    "--version",
];

/// The message for words that are refused.
pub fn words_message(alloc: Global, words: &[String]) -> Result<String, AllocError> {
    let mut text = String::from_str(alloc, "error: ")?;
    match words.split_first() {
        None => text.push_str("there is no command\n")?,
        Some((first, rest)) => put_words(alloc, &mut text, first.as_str(), rest)?,
    }
    put_page(&mut text, words)?;
    put_explain(&mut text, 0, u16::from(Status::Words.number()))?;
    Ok(text)
}

/// Puts which help lists the words: that of the command, if there is such a one.
fn put_page(text: &mut String, words: &[String]) -> Result<(), AllocError> {
    let command = match words.first() {
        Some(word) => word.as_str(),
        None => "",
    };
    match command {
        "generate" | "check" | "export" | "verify" | "flat" | "make" | "migrate" => {
            write!(
                text,
                "  = help: `osc {command} --help` lists the words and options of `{command}`\n"
            )
        }
        "explain" => Ok(()),
        _ => text.push_str("  = help: `osc help` lists the commands\n"),
    }
}

/// The help text of a command.
fn help_of(command: &str) -> &'static str {
    match command {
        "generate" => generate_help(),
        "check" => check_help(),
        "export" => export_help(),
        "verify" => verify_help(),
        "flat" => flat_help(),
        "make" => make_help(),
        "migrate" => migrate_help(),
        _ => general_help(),
    }
}

fn put_words<'a>(
    alloc: Global,
    text: &mut String,
    command: &'a str,
    rest: &'a [String],
) -> Result<(), AllocError> {
    if command == "explain" {
        put_explained(text, rest)
    } else if is_help(read(alloc, &[command, "--help"])?) {
        put_refused(alloc, text, command, rest)
    } else {
        put_no_command(alloc, text, command)
    }
}

/// Puts which word after `explain` is refused.
fn put_explained(text: &mut String, rest: &[String]) -> Result<(), AllocError> {
    match rest {
        [word] => {
            let word = word.as_str();
            write!(
                text,
                "`{word}` is the number of no code and of no status that refuses\n"
            )?;
            put_number(text, word)?;
            put_help(text, 0, "`osc explain` lists all of them")
        }
        _ => text.push_str("`osc explain` takes one word at most\n"),
    }
}

/// Puts the number within a word, if it is that of a topic.
fn put_number(text: &mut String, word: &str) -> Result<(), AllocError> {
    let number = word.trim_matches(|c: char| !c.is_ascii_digit());
    match topic_named(number) {
        Some(Topic::Fault(_) | Topic::Status(_)) => {
            write!(
                text,
                "  = help: write the number alone: `osc explain {number}`\n"
            )
        }
        None => Ok(()),
    }
}

/// Puts that there is no such command, and which one is near.
fn put_no_command(alloc: Global, text: &mut String, word: &str) -> Result<(), AllocError> {
    write!(text, "`{word}` is no command\n")?;
    let mut nearest = Nearest::new(word);
    for command in &COMMANDS {
        nearest.look_at(alloc, command)?;
    }
    match nearest.name() {
        Some(name) => {
            let help = format!(in alloc; "a command near it is `osc {name}`")?;
            put_help(text, 0, help.as_str())
        }
        None => Ok(()),
    }
}

/// Puts which word after a command is refused, or that one is missing.
fn put_refused<'a>(
    alloc: Global,
    text: &mut String,
    command: &'a str,
    rest: &'a [String],
) -> Result<(), AllocError> {
    let mut words = Vec::new(alloc);
    words.push(command)?;
    for word in rest.iter().take(WORDS) {
        words.push(word.as_str())?;
    }
    let words = words.as_slice();
    let count = taken(alloc, words)?;
    let (before, after) = words.split_at(count.min(words.len()));
    match after {
        [] => put_missing(alloc, text, command, words),
        [word, ..] if is_option(alloc, before, word)? => {
            put_value(text, command, word, after.get(1).copied())
        }
        [word, ..] => put_stray(alloc, text, command, before, word),
    }
}

/// Puts that a word isn't taken: an option of that name has a value, stands twice or isn't there.
fn put_stray(
    alloc: Global,
    text: &mut String,
    command: &str,
    before: &[&str],
    word: &str,
) -> Result<(), AllocError> {
    let (name, value) = match word.split_once('=') {
        Some((name, value)) => (name, Some(value)),
        None => (word, None),
    };
    let has_option = has_entry(command, name);
    if has_option && before.iter().any(|it| names_option(it, name)) {
        write!(text, "`{name}` stands twice\n")
    } else if has_option && value.is_some() {
        put_value(text, command, name, value)
    } else if word.starts_with('-') {
        put_no_option(alloc, text, command, name)
    } else {
        write!(
            text,
            "`osc {command}` doesn't take the word `{word}` here\n"
        )?;
        put_entry(text, command, "N")
    }
}

/// Whether a word is an option of this name, alone or with its value.
fn names_option(word: &str, name: &str) -> bool {
    match word.strip_prefix(name) {
        Some(rest) => rest.is_empty() || rest.starts_with('='),
        None => false,
    }
}

/// Puts that a command has no such option, and which one is near.
fn put_no_option(
    alloc: Global,
    text: &mut String,
    command: &str,
    name: &str,
) -> Result<(), AllocError> {
    write!(text, "`osc {command}` has no option `{name}`\n")?;
    let mut nearest = Nearest::new(name);
    for line in help_of(command).lines() {
        if let Some(option) = entry_of(line) {
            nearest.look_at(alloc, option)?;
        }
    }
    match nearest.name() {
        Some(name) => write!(text, "  = help: an option near it is `{name}`\n"),
        None => Ok(()),
    }
}

/// The word or option of which a line of a help text tells.
fn entry_of(line: &str) -> Option<&str> {
    let entry = line.strip_prefix("  ")?;
    if entry.starts_with([' ', '-']) && !entry.starts_with("--") {
        return None;
    }
    entry.split(' ').next()
}

/// Whether the help of a command tells of a word or option of this name.
fn has_entry(command: &str, name: &str) -> bool {
    help_of(command)
        .lines()
        .any(|line| entry_of(line) == Some(name))
}

/// Puts what the help of a command tells of a word or option. It may tell nothing.
fn put_entry(text: &mut String, command: &str, name: &str) -> Result<(), AllocError> {
    let mut is_told = false;
    for line in help_of(command).lines() {
        let entry = entry_of(line);
        if entry == Some(name) {
            is_told = true;
            let what = line.strip_prefix("  ").unwrap_or(line);
            write!(text, "  = help: {what}\n")?;
        } else if entry.is_some() || line.is_empty() || line.starts_with("  -") {
            is_told = false;
        } else if is_told {
            let what = line.trim_start();
            write!(text, "            {what}\n")?;
        }
    }
    Ok(())
}

/// How many of the words come before the first one that is refused.
fn taken(alloc: Global, words: &[&str]) -> Result<usize, AllocError> {
    let mut taken = 0;
    for count in 1..words.len().saturating_add(1) {
        let before = words.get(..count).unwrap_or(words);
        if is_help(read_with(alloc, before, &["--help"])?) {
            taken = count;
        }
    }
    Ok(taken)
}

/// The words that a command takes, in their order.
fn words_of(command: &str) -> &'static [&'static str] {
    match command {
        "check" | "export" => &["FILE", "SCENARIO", "RUN"],
        "verify" => &["FILE", "SCENARIO", "RECORD"],
        "make" => &["N"],
        "migrate" => &["RUN"],
        _ => &["FILE", "SCENARIO"],
    }
}

/// Puts which words are missing, if more of them would be taken.
fn put_missing(
    alloc: Global,
    text: &mut String,
    command: &str,
    words: &[&str],
) -> Result<(), AllocError> {
    let names = words_of(command);
    let count = names.len().saturating_sub(missing(alloc, words)?);
    let (given, wanted) = names.split_at(count);
    match wanted {
        [] => return put_together(text, command, words),
        [one] => write!(text, "{one} is missing")?,
        [one, two] => write!(text, "{one} and {two} are missing")?,
        [one, two, three, ..] => write!(text, "{one}, {two} and {three} are missing")?,
    }
    match given.last() {
        Some(name) => write!(text, " after {name}\n"),
        None => text.push_str("\n"),
    }
}

/// Puts why words can't stand together: of `export` the form is missing, or isn't known.
fn put_together(text: &mut String, command: &str, words: &[&str]) -> Result<(), AllocError> {
    if command != "export" {
        return text.push_str("these words can't stand together\n");
    }
    match form_in(words) {
        Some(form) => put_value(text, command, FORM, Some(form)),
        None => {
            write!(text, "`{FORM}` is missing\n")?;
            put_entry(text, command, FORM)
        }
    }
}

/// The form that the words name.
fn form_in<'a>(words: &[&'a str]) -> Option<&'a str> {
    for (index, word) in words.iter().enumerate() {
        if *word == FORM {
            return words.get(index.saturating_add(1)).copied();
        }
        if let Some(form) = word.strip_prefix("--as=") {
            return Some(form);
        }
    }
    None
}

/// How many more words would be taken, up to 3; 0 if none would. Each command takes the word 1, also for a number.
fn missing(alloc: Global, words: &[&str]) -> Result<usize, AllocError> {
    let more = ["1", "1", "1"];
    for count in 1..4 {
        if is_whole(alloc, words, &more[..count])? {
            return Ok(count);
        }
    }
    Ok(0)
}

/// Whether the words are taken with these more, and with a form if they name none.
fn is_whole(alloc: Global, words: &[&str], more: &[&str]) -> Result<bool, AllocError> {
    if is_taken(read_with(alloc, words, more)?) {
        return Ok(true);
    }
    let mut formed = Vec::new(alloc);
    for word in words {
        formed.push(*word)?;
    }
    formed.push(FORM)?;
    formed.push("csv")?;
    Ok(is_taken(read_with(alloc, formed.as_slice(), more)?))
}

/// Puts that an option doesn't take the value after it, or has none.
fn put_value(
    text: &mut String,
    command: &str,
    option: &str,
    value: Option<&str>,
) -> Result<(), AllocError> {
    match value {
        Some(value) => write!(text, "`{option}` doesn't take the value `{value}`\n")?,
        None => write!(text, "`{option}` has no value\n")?,
    }
    put_entry(text, command, option)
}

/// Whether after these words this one is an option that wants a value. Each option takes one of three values.
fn is_option(alloc: Global, before: &[&str], word: &str) -> Result<bool, AllocError> {
    for value in ["1", "100", "1000"] {
        if is_help(read_with(alloc, before, &[word, value, "--help"])?) {
            return Ok(true);
        }
    }
    Ok(false)
}

/// What words ask for.
#[derive(Clone, Copy)]
enum Asked {
    Help,
    Other,
    /// The words are refused.
    Nothing,
}

fn is_help(asked: Asked) -> bool {
    matches!(asked, Asked::Help)
}

fn is_taken(asked: Asked) -> bool {
    matches!(asked, Asked::Other)
}

fn read(alloc: Global, words: &[&str]) -> Result<Asked, AllocError> {
    read_with(alloc, words, &[])
}

/// What the words and then some more ask for.
fn read_with(alloc: Global, words: &[&str], more: &[&str]) -> Result<Asked, AllocError> {
    let mut all = Vec::new(alloc);
    put_copies(alloc, &mut all, words)?;
    put_copies(alloc, &mut all, more)?;
    match read_words(alloc, all.as_slice())? {
        Request::Help(_) => Ok(Asked::Help),
        Request::Refused => Ok(Asked::Nothing),
        _ => Ok(Asked::Other),
    }
}

fn put_copies(alloc: Global, all: &mut Vec<String>, words: &[&str]) -> Result<(), AllocError> {
    for word in words {
        all.push(String::from_str(alloc, word)?)?;
    }
    Ok(())
}
