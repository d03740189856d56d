//! The commands whose words clap's match definitions read.

ghost use Rattle.std.specs.Prelude.{◌≡◌, IfOk, [], map, string_bytes};
ghost use Rattle.clap.specs.Words.{app_of, found_of};
ghost use Rattle.command_words.specs.Parse.{held};
ghost use Rattle.command_words.specs.Seen.{seen};
ghost use Rattle.command_words.specs.Shared.{scene_command};
ghost use Rattle.command_words.specs.Taken.{HoldsExport, HoldsNumbers, form_of};
ghost use Rattle.command_words.specs.Words.{HasRanges, export, export_asked, export_form_named, generate, make, migrate, wanted};

use crate::parse::{
    Parsed, bare_command, choice, number, number_of, number_word, parse, small_number_of, text,
    text_of, word,
};
use crate::requests::{
    CheckWords, ExportForm, ExportWords, FlatWords, GenerateWords, MakeWords, MigrateWords,
    Request, VerifyWords,
};
use crate::shared::{file_command, scene_command, setting_of, source_of};
use crate::texts::{
    check_help, export_help, flat_help, generate_help, make_help, migrate_help, verify_help,
};
use clap::{ArgMatches, Command};
use std::alloc::{AllocError, Global};

/// A command that takes words.
#[derive(Clone, Copy)]
pub enum CommandName {
    Generate,
    Check,
    Export,
    Verify,
    Flat,
    Make,
    Migrate,
}

/// Reads the words after the name of a command.
pub fn read_command(
    alloc: Global,
    name: CommandName,
    words: &[String],
) -> Result<Request<'_>, AllocError>
    ensures request { IfOk result (λ r. seen r ≡ wanted (form_of name) (map string_bytes words.now)) }
    ensures ranges { IfOk result (λ r. HasRanges (seen r)) }
{
    let command = definition_of(alloc, name)?;
    match parse(command, words)? {
        Parsed::Taken(matches) => Ok(taken(name, &matches)),
        Parsed::Help => Ok(Request::Help(help_of(name))),
        Parsed::Refused => Ok(Request::Refused),
    }
}

/// The match definition of the words after a command's name.
fn definition_of<'a>(alloc: Global, name: CommandName) -> Result<Command<'a>, AllocError>
    ensures { IfOk result (λ c. app_of c ≡ (form_of name).definition) }
{
    match name {
        CommandName::Generate => generate_command(alloc),
        CommandName::Check => file_command(alloc, "check", "RUN"),
        CommandName::Export => export_command(alloc),
        CommandName::Verify => file_command(alloc, "verify", "RECORD"),
        CommandName::Flat => scene_command(alloc, "flat"),
        CommandName::Make => make_command(alloc),
        CommandName::Migrate => migrate_command(alloc),
    }
}

fn generate_command<'a>(alloc: Global) -> Result<Command<'a>, AllocError>
    ensures { IfOk result (λ c. app_of c ≡ generate) }
{
    let with_setting = scene_command(alloc, "generate")?;
    let with_seed = with_setting.arg(number(alloc, "seed", 0, u64::MAX, "0"))?;
    let with_cuts = with_seed.arg(number(alloc, "cuts", 1, 1_000_000, "200000"))?;
    with_cuts.arg(number(alloc, "tries", 1, 100, "1"))
}

fn export_command<'a>(alloc: Global) -> Result<Command<'a>, AllocError>
    ensures { IfOk result (λ c. app_of c ≡ export) }
{
    let with_setting = file_command(alloc, "export", "RUN")?;
    let with_form = with_setting.arg(choice(alloc, "as"))?;
    let with_ego = with_form.arg(text(alloc, "ego"))?;
    with_ego.arg(number(alloc, "lane-width", 1000, 10_000, "3500"))
}

fn make_command<'a>(alloc: Global) -> Result<Command<'a>, AllocError>
    ensures { IfOk result (λ c. app_of c ≡ make) }
{
    bare_command(alloc, "make").arg(number_word(alloc, "N", 1, 16))
}

fn migrate_command<'a>(alloc: Global) -> Result<Command<'a>, AllocError>
    ensures { IfOk result (λ c. app_of c ≡ migrate) }
{
    bare_command(alloc, "migrate").arg(word(alloc, "RUN"))
}

/// The words and options of a command.
fn help_of(name: CommandName) -> &'static str
    ensures { result.now ≡ (form_of name).help }
{
    match name {
        CommandName::Generate => generate_help(),
        CommandName::Check => check_help(),
        CommandName::Export => export_help(),
        CommandName::Verify => verify_help(),
        CommandName::Flat => flat_help(),
        CommandName::Make => make_help(),
        CommandName::Migrate => migrate_help(),
    }
}

/// What the words of a command ask for, by what was matched.
fn taken<'a>(name: CommandName, matches: &ArgMatches<'a>) -> Request<'a>
    requires { HoldsNumbers name (found_of matches.now) }
    ensures request { seen result ≡ (form_of name).asked (held (found_of matches.now)) }
    ensures ranges { HasRanges (seen result) }
{
    match name {
        CommandName::Generate => Request::Generate(GenerateWords {
            source: source_of(matches),
            setting: setting_of(matches),
            seed: number_of(matches, "seed"),
            cuts: small_number_of(matches, "cuts"),
            tries: small_number_of(matches, "tries"),
        }),
        CommandName::Check => Request::Check(CheckWords {
            source: source_of(matches),
            run: text_of(matches, "RUN"),
            setting: setting_of(matches),
        }),
        CommandName::Export => export_taken(matches),
        CommandName::Verify => Request::Verify(VerifyWords {
            source: source_of(matches),
            record: text_of(matches, "RECORD"),
            setting: setting_of(matches),
        }),
        CommandName::Flat => Request::Flat(FlatWords {
            source: source_of(matches),
            setting: setting_of(matches),
        }),
        CommandName::Make => Request::Make(MakeWords {
            count: small_number_of(matches, "N"),
        }),
        CommandName::Migrate => Request::Migrate(MigrateWords {
            run: text_of(matches, "RUN"),
        }),
    }
}

/// What the words of `export` ask for, by what was matched.
fn export_taken<'a>(matches: &ArgMatches<'a>) -> Request<'a>
    requires { HoldsExport (found_of matches.now) }
    ensures request { seen result ≡ export_asked (held (found_of matches.now)) }
    ensures ranges { HasRanges (seen result) }
{
    match export_form_named(text_of(matches, "as")) {
        Some(form) => Request::Export(ExportWords {
            source: source_of(matches),
            run: text_of(matches, "RUN"),
            setting: setting_of(matches),
            form,
            ego: text_of(matches, "ego"),
            lane_width: small_number_of(matches, "lane-width"),
        }),
        None => Request::Refused,
    }
}

/// The form of this name.
fn export_form_named(name: &str) -> Option<ExportForm>
    ensures { result ≡ export_form_named name.now }
{
    match name {
        "csv" => Some(ExportForm::Csv),
        "xosc" => Some(ExportForm::Xosc),
        "xodr" => Some(ExportForm::Xodr),
        "html" => Some(ExportForm::Html),
        _ => None,
    }
}
