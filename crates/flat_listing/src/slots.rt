//! The lines of slots.

ghost use Rattle.std.specs.Prelude.{◌≡◌, ◌++◌, OnOk};
ghost use Rattle.std.specs.String.{string_bytes};
ghost use Rattle.flat_listing.specs.ListingText.{at_path, at_tick, slot_line, slot_lines, slot_text};

use box_eval::Pair;
use osc_base::{Path, SlotName};
use std::alloc::{AllocError, Global};

/// Adds a word and a path.
pub fn push_at_path(
    alloc: Global,
    text: &mut String,
    word: &str,
    path: &Path,
) -> Result<(), AllocError>
    ensures { OnOk result (string_bytes text.new ≡ string_bytes text.old ++ at_path word.now path.now) }
{
    let path = path.text(alloc)?;
    let path = path.as_str();
    write!(text, "{word} {path}")
}

/// Adds a word, a path and a tick.
pub fn push_at_tick(
    alloc: Global,
    text: &mut String,
    word: &str,
    path: &Path,
    tick: u32,
) -> Result<(), AllocError>
    ensures { OnOk result (string_bytes text.new ≡ string_bytes text.old ++ at_tick word.now path.now tick) }
{
    let path = path.text(alloc)?;
    let path = path.as_str();
    write!(text, "{word} {path} {tick}")
}

/// Adds what a slot holds.
fn push_name(alloc: Global, text: &mut String, name: &SlotName) -> Result<(), AllocError>
    ensures { OnOk result (string_bytes text.new ≡ string_bytes text.old ++ slot_text name.now) }
{
    match name {
        SlotName::Choice { path } => push_at_path(alloc, text, "choice", path),
        SlotName::Start { path } => push_at_path(alloc, text, "start", path),
        SlotName::End { path } => push_at_path(alloc, text, "end", path),
        SlotName::Value { path } => push_at_path(alloc, text, "value", path),
        SlotName::Lane { path, tick } => push_at_tick(alloc, text, "lane", path, *tick),
        SlotName::Position { path, tick } => push_at_tick(alloc, text, "position", path, *tick),
        SlotName::Speed { path, tick } => push_at_tick(alloc, text, "speed", path, *tick),
    }
}

/// Adds what a slot holds, and its least and its greatest value.
fn push_slot(
    alloc: Global,
    text: &mut String,
    name: &SlotName,
    ends: Pair,
) -> Result<(), AllocError>
    ensures { OnOk result (string_bytes text.new ≡ string_bytes text.old ++ slot_line name.now ends) }
{
    push_name(alloc, text, name)?;
    let (low, high) = (ends.low, ends.high);
    write!(text, " {low} {high}\n")
}

/// Adds the line of each slot.
pub fn push_slots(
    alloc: Global,
    text: &mut String,
    slots: &[SlotName],
    ends: &[Pair],
) -> Result<(), AllocError>
    ensures { OnOk result (string_bytes text.new ≡ string_bytes text.old ++ slot_lines slots.now ends.now) }
{
    let (mut names, mut pairs) = (slots, ends);
    while let [name, later @ ..] = names {
        let [pair, others @ ..] = pairs else {
            break;
        };
        push_slot(alloc, text, name, *pair)?;
        names = later;
        pairs = others;
    }
    Ok(())
}
