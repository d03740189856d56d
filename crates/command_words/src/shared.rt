//! Words that commands share.

ghost use Rattle.std.specs.Prelude.{◌≡◌, IfOk, [], ◌∷◌};
ghost use Rattle.clap.specs.Words.{app_of, found_of};
ghost use Rattle.command_words.specs.Match.{command_of, with_rules, word_rule};
ghost use Rattle.command_words.specs.Parse.{held};
ghost use Rattle.command_words.specs.Seen.{source_by};
ghost use Rattle.command_words.specs.Shared.{IsSettingInRanges, scene_command, setting_matched, setting_rules, source_matched, source_rules};
ghost use Rattle.command_words.specs.Taken.{HoldsSetting};

use crate::parse::{bare_command, number, small_number_of, text_of, word};
use crate::requests::{Setting, Source};
use clap::{ArgMatches, Command};
use std::alloc::{AllocError, Global};

/// The match definition of a command of this name with a source and a setting.
pub fn scene_command<'a>(alloc: Global, name: &'a str) -> Result<Command<'a>, AllocError>
    ensures { IfOk result (λ c. app_of c ≡ scene_command name.entry.now [] []) }
{
    let with_source = source_command(alloc, name)?;
    add_setting(alloc, with_source)
}

/// The same with the word of one more file.
pub fn file_command<'a>(
    alloc: Global,
    name: &'a str,
    file: &'a str,
) -> Result<Command<'a>, AllocError>
    ensures { IfOk result (λ c. app_of c ≡ scene_command name.entry.now (word_rule file.entry.now ∷ []) []) }
{
    let with_source = source_command(alloc, name)?;
    let with_file = with_source.arg(word(alloc, file))?;
    add_setting(alloc, with_file)
}

fn source_command<'a>(alloc: Global, name: &'a str) -> Result<Command<'a>, AllocError>
    ensures { IfOk result (λ c. app_of c ≡ command_of name.entry.now source_rules) }
{
    let with_file = bare_command(alloc, name).arg(word(alloc, "FILE"))?;
    with_file.arg(word(alloc, "SCENARIO"))
}

/// Adds the options of a setting.
fn add_setting<'a>(alloc: Global, command: Command<'a>) -> Result<Command<'a>, AllocError>
    ensures { IfOk result (λ c. app_of c ≡ with_rules (app_of command.entry) setting_rules) }
{
    let with_ticks = command.arg(number(alloc, "ticks", 1, 600, "100"))?;
    let with_lanes = with_ticks.arg(number(alloc, "lanes", 1, 8, "3"))?;
    let with_road = with_lanes.arg(number(alloc, "road", 1, 10_000, "1000"))?;
    with_road.arg(number(alloc, "tick", 10, 1000, "100"))
}

/// The source that was matched.
pub fn source_of<'a>(matches: &ArgMatches<'a>) -> Source<'a>
    ensures { source_by result ≡ source_matched (held (found_of matches.now)) }
{
    Source {
        file: text_of(matches, "FILE"),
        scenario: text_of(matches, "SCENARIO"),
    }
}

/// The setting that was matched.
pub fn setting_of(matches: &ArgMatches<'_>) -> Setting
    requires { HoldsSetting (found_of matches.now) }
    ensures setting { result ≡ setting_matched (held (found_of matches.now)) }
    ensures ranges { IsSettingInRanges result }
{
    Setting {
        ticks: small_number_of(matches, "ticks"),
        lanes: small_number_of(matches, "lanes"),
        road: small_number_of(matches, "road"),
        tick: small_number_of(matches, "tick"),
    }
}
