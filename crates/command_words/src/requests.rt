ghost use Rattle.std.specs.Prelude.{◌≡◌, IfOk, map, string_bytes};
ghost use Rattle.command_words.specs.Seen.{seen};
ghost use Rattle.command_words.specs.Words.{HasRanges, help_named, help_of_word, request};

use crate::commands::{CommandName, read_command};
use crate::explain::read_explain;
use crate::texts::{
    check_help, export_help, flat_help, general_help, generate_help, make_help, migrate_help,
    verify_help, version_text,
};
use fault_texts::Topic;
use std::alloc::{AllocError, Global};

/// What the words after the program's name ask for.
#[derive(Debug, Clone, Copy)]
pub enum Request<'a> {
    /// This text is to be written: a help text or the version.
    Help(&'static str),
    /// All topics are to be listed.
    Topics,
    /// What there is to say of a topic is to be written.
    Explain(Topic),
    /// A run is to be written.
    Generate(GenerateWords<'a>),
    /// A run is to be checked.
    Check(CheckWords<'a>),
    /// A run is to be written in another form.
    Export(ExportWords<'a>),
    /// A record is to be verified.
    Verify(VerifyWords<'a>),
    /// The slots and rules of a scenario are to be listed.
    Flat(FlatWords<'a>),
    /// A run of a made source is to be written.
    Make(MakeWords),
    /// A run is to be written as text of form 2.
    Migrate(MigrateWords<'a>),
    /// The words ask for nothing that is known.
    Refused,
}

/// A scenario of a source file.
#[derive(Debug, Clone, Copy)]
pub struct Source<'a> {
    /// The name of the source file. It may be any text, even an empty one.
    pub file: &'a str,
    /// The scenario, as `NAME` or `ACTOR.NAME`. It may be any text, even an empty one.
    pub scenario: &'a str,
}

/// The bounds within which a run is looked for.
#[derive(Debug, Clone, Copy, PartialEq, Eq)]
pub struct Setting {
    /// The last tick that a run may have, 1 to 600.
    pub ticks: u32,
    /// The number of lanes of the road, 1 to 8.
    pub lanes: u32,
    /// The length of the road in metres, 1 to 10000.
    pub road: u32,
    /// The length of a tick in milliseconds, 10 to 1000.
    pub tick: u32,
}

/// What the words after `generate` ask for.
#[derive(Debug, Clone, Copy)]
pub struct GenerateWords<'a> {
    pub source: Source<'a>,
    pub setting: Setting,
    /// The seed of what is drawn at random, any number.
    pub seed: u64,
    /// The most cuts that a search makes, 1 to 1000000.
    pub cuts: u32,
    /// The most searches, 1 to 100. Each but the first follows one that ended undecided.
    pub tries: u32,
}

/// What the words after `check` ask for.
#[derive(Debug, Clone, Copy)]
pub struct CheckWords<'a> {
    pub source: Source<'a>,
    /// The name of the file with the run. It may be any text, even an empty one.
    pub run: &'a str,
    pub setting: Setting,
}

/// A form in which a run leaves the tool.
#[derive(Debug, Clone, Copy, PartialEq, Eq)]
pub enum ExportForm {
    /// A table of comma separated values.
    Csv,
    /// A file in ASAM OpenSCENARIO XML 1.1.
    Xosc,
    /// The road, as a file in ASAM OpenDRIVE 1.6.
    Xodr,
    /// A page for a browser.
    Html,
}

/// What the words after `export` ask for.
#[derive(Debug, Clone, Copy)]
pub struct ExportWords<'a> {
    pub source: Source<'a>,
    /// The name of the file with the run. It may be any text, even an empty one.
    pub run: &'a str,
    pub setting: Setting,
    pub form: ExportForm,
    /// The path of the vehicle that a simulator drives; empty if there is none.
    pub ego: &'a str,
    /// The width of a lane in millimetres, 1000 to 10000.
    pub lane_width: u32,
}

/// What the words after `verify` ask for.
#[derive(Debug, Clone, Copy)]
pub struct VerifyWords<'a> {
    pub source: Source<'a>,
    /// The name of the file with the record. It may be any text, even an empty one.
    pub record: &'a str,
    pub setting: Setting,
}

/// What the words after `flat` ask for.
#[derive(Debug, Clone, Copy)]
pub struct FlatWords<'a> {
    pub source: Source<'a>,
    pub setting: Setting,
}

/// What the words after `make` ask for.
#[derive(Debug, Clone, Copy, PartialEq, Eq)]
pub struct MakeWords {
    /// The number of vehicles and of parallel blocks, 1 to 16.
    pub count: u32,
}

/// What the words after `migrate` ask for.
#[derive(Debug, Clone, Copy)]
pub struct MigrateWords<'a> {
    /// The name of the file with the run. It may be any text, even an empty one.
    pub run: &'a str,
}

/// Reads the words after the program's name.
///
/// Out of memory is its only error.
pub fn read_words(alloc: Global, words: &[String]) -> Result<Request<'_>, AllocError>
    ensures request { IfOk result (λ r. seen r ≡ request (map string_bytes words.now)) }
    ensures ranges { IfOk result (λ r. HasRanges (seen r)) }
{
    let Some((first, rest)) = words.split_first() else {
        return Ok(Request::Refused);
    };
    match first.as_str() {
        "help" => Ok(Request::Help(help_named(rest))),
        "--help" | "-h" => Ok(Request::Help(general_help())),
        "--version" | "-V" => Ok(Request::Help(version_text())),
        "generate" => read_command(alloc, CommandName::Generate, rest),
        "check" => read_command(alloc, CommandName::Check, rest),
        "export" => read_command(alloc, CommandName::Export, rest),
        "verify" => read_command(alloc, CommandName::Verify, rest),
        "flat" => read_command(alloc, CommandName::Flat, rest),
        "make" => read_command(alloc, CommandName::Make, rest),
        "migrate" => read_command(alloc, CommandName::Migrate, rest),
        "explain" => Ok(read_explain(rest)),
        _ => Ok(Request::Refused),
    }
}

/// The help that the words after `help` ask for: that of the command that the first of them names, or the general help.
fn help_named(words: &[String]) -> &'static str
    ensures { result.now ≡ help_named (map string_bytes words.now) }
{
    match words {
        [] => general_help(),
        [word, ..] => help_of_word(word.as_str()),
    }
}

/// The help of the command that a word names, or the general help.
fn help_of_word(word: &str) -> &'static str
    ensures { result.now ≡ help_of_word word.now }
{
    match word {
        "generate" => generate_help(),
        "check" => check_help(),
        "export" => export_help(),
        "verify" => verify_help(),
        "flat" => flat_help(),
        "make" => make_help(),
        "migrate" => migrate_help(),
        _ => general_help(),
    }
}
