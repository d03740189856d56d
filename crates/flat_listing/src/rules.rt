//! The lines of rules.

ghost use Rattle.std.specs.Prelude.{◌≡◌, ◌++◌, codes, OnOk};
ghost use Rattle.std.specs.Fmt.{decimal};
ghost use Rattle.std.specs.String.{string_bytes};
ghost use Rattle.flat_listing.specs.ListingText.{at_place, rule_line, rule_lines, rule_text};

use crate::slots::{push_at_path, push_at_tick};
use name_scope::Program;
use osc_base::{Place, RuleName};
use std::alloc::{AllocError, Global};

/// Adds a word and a place in a file of the program.
fn push_at_place(
    text: &mut String,
    program: &Program,
    word: &str,
    place: Place,
) -> Result<(), AllocError>
    ensures { OnOk result (string_bytes text.new ≡ string_bytes text.old ++ at_place program.now word.now place) }
{
    let file = program.name(place.file).unwrap_or("");
    let (line, column) = (place.line, place.column);
    write!(text, "{word} {file}:{line}:{column}")
}

/// Adds the place of a modifier, and a tick.
fn push_modifier(
    text: &mut String,
    program: &Program,
    place: Place,
    tick: u32,
) -> Result<(), AllocError>
    ensures { OnOk result (string_bytes text.new ≡ string_bytes text.old ++ (at_place program.now (codes "modifier") place ++ codes " " ++ decimal tick)) }
{
    push_at_place(text, program, "modifier", place)?;
    write!(text, " {tick}")
}

/// Adds what a rule says.
fn push_name(
    alloc: Global,
    text: &mut String,
    program: &Program,
    name: &RuleName,
) -> Result<(), AllocError>
    ensures { OnOk result (string_bytes text.new ≡ string_bytes text.old ++ rule_text program.now name.now) }
{
    match name {
        RuleName::Hard { place } => push_at_place(text, program, "hard", *place),
        RuleName::Default { place } => push_at_place(text, program, "default", *place),
        RuleName::Typed { path } => push_at_path(alloc, text, "typed", path),
        RuleName::Arranged { path } => push_at_path(alloc, text, "arranged", path),
        RuleName::Modifier { place, tick } => push_modifier(text, program, *place, *tick),
        RuleName::Motion { path, tick } => push_at_tick(alloc, text, "motion", path, *tick),
    }
}

/// Adds the line of a rule.
fn push_rule(
    alloc: Global,
    text: &mut String,
    program: &Program,
    name: &RuleName,
) -> Result<(), AllocError>
    ensures { OnOk result (string_bytes text.new ≡ string_bytes text.old ++ rule_line program.now name.now) }
{
    push_name(alloc, text, program, name)?;
    text.push_str("\n")
}

/// Adds the line of each rule.
pub fn push_rules(
    alloc: Global,
    text: &mut String,
    program: &Program,
    rules: &[RuleName],
) -> Result<(), AllocError>
    ensures { OnOk result (string_bytes text.new ≡ string_bytes text.old ++ rule_lines program.now rules.now) }
{
    for name in rules {
        push_rule(alloc, text, program, name)?;
    }
    Ok(())
}
