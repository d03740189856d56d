ghost use Rattle.std.specs.Prelude.{◌≡◌, IfOk, true, false, [], map, string_bytes};
ghost use Rattle.clap.specs.Words.{app_of, is_simple_and_free, found_of, rule_of};
ghost use Rattle.command_words.specs.Match.{choice_rule, command_of, number_rule, number_word_rule, text_rule, word_rule};
ghost use Rattle.command_words.specs.Parse.{HoldsNumber, IsParse, is_leaf, number_held, text_held};

use clap::builder::ValueParser;
use clap::error::ErrorKind;
use clap::{Arg, ArgAction, ArgMatches, Command};
use std::alloc::{AllocError, Global};

/// What the match definition of a command makes of words.
pub enum Parsed<'a> {
    Taken(ArgMatches<'a>),
    /// The words ask for the command's help.
    Help,
    Refused,
}

/// Matches `words` with the definition `command`.
pub fn parse<'a>(command: Command<'a>, words: &'a [String]) -> Result<Parsed<'a>, AllocError>
    requires simple { is_simple_and_free (app_of command) ≡ true }
    requires leaf { is_leaf (app_of command) ≡ true }
    ensures { IfOk result (IsParse command.entry (map string_bytes words.entry.now)) }
{
    match command.try_get_matches_from(words) {
        Ok(matches) => Ok(Parsed::Taken(matches)),
        Err(error) => match error.kind() {
            ErrorKind::OutOfMemory => Err(AllocError),
            ErrorKind::DisplayHelp => Ok(Parsed::Help),
            _ => Ok(Parsed::Refused),
        },
    }
}

/// The match definition of a command of this name, which takes no words yet.
pub fn bare_command<'a>(alloc: Global, name: &'a str) -> Command<'a>
    ensures { app_of result ≡ command_of name.entry.now [] }
{
    Command::new(alloc, name).no_binary_name(true)
}

/// A word that must be given, in its turn.
pub fn word<'a>(alloc: Global, name: &'a str) -> Arg<'a>
    ensures rule { rule_of result ≡ word_rule name.entry.now }
    ensures local { result.global ≡ false }
{
    Arg::new(alloc, name).action(ArgAction::Set).required(true)
}

/// A whole number from `least` to `most` that must be given, in its turn.
pub fn number_word<'a>(alloc: Global, name: &'a str, least: u64, most: u64) -> Arg<'a>
    ensures rule { rule_of result ≡ number_word_rule name.entry.now least most }
    ensures local { result.global ≡ false }
{
    word(alloc, name).value_parser(ValueParser::Unsigned(least, most))
}

/// An option `--name` with a whole number from `least` to `most`, which is `default` if it isn't given.
pub fn number<'a>(alloc: Global, name: &'a str, least: u64, most: u64, default: &'a str) -> Arg<'a>
    ensures rule { rule_of result ≡ number_rule name.entry.now least most default.entry.now }
    ensures local { result.global ≡ false }
{
    Arg::new(alloc, name)
        .long(name)
        .action(ArgAction::Set)
        .value_parser(ValueParser::Unsigned(least, most))
        .default_value(default)
}

/// An option `--name` with a text, which may be left out.
pub fn text<'a>(alloc: Global, name: &'a str) -> Arg<'a>
    ensures rule { rule_of result ≡ text_rule name.entry.now }
    ensures local { result.global ≡ false }
{
    Arg::new(alloc, name).long(name).action(ArgAction::Set)
}

/// An option `--name` with a text, which must be given.
pub fn choice<'a>(alloc: Global, name: &'a str) -> Arg<'a>
    ensures rule { rule_of result ≡ choice_rule name.entry.now }
    ensures local { result.global ≡ false }
{
    text(alloc, name).required(true)
}

/// The text that was matched with the word or the option `name`; empty if there is none.
pub fn text_of<'a>(matches: &ArgMatches<'a>, name: &str) -> &'a str
    ensures { result.now ≡ text_held (found_of matches.now) name.now }
{
    matches.get_str(name).unwrap_or("")
}

/// The number that was matched with the word or the option `name`.
pub fn number_of(matches: &ArgMatches<'_>, name: &str) -> u64
    requires { HoldsNumber (found_of matches.now) name.now 0 18446744073709551615 }
    ensures { result ≡ number_held (found_of matches.now) name.now }
{
    matches.get_one::<u64>(name).unwrap_or(0)
}

/// The number that was matched with the word or the option `name`, whose range lies within 32 bits.
pub fn small_number_of(matches: &ArgMatches<'_>, name: &str) -> u32
    requires { HoldsNumber (found_of matches.now) name.now 0 4294967295 }
    ensures { result ≡ number_held (found_of matches.now) name.now }
{
    matches.get_one::<u32>(name).unwrap_or(0)
}
