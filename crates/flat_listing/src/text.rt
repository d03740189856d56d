//! The whole text.

ghost use Rattle.std.specs.Prelude.{◌≡◌, ◌++◌, codes, length, IfOk, OnOk};
ghost use Rattle.std.specs.String.{string_bytes};
ghost use Rattle.flat_listing.specs.ListingText.{count_line, listing_text, rule_lines, slot_lines};

use crate::rules::push_rules;
use crate::slots::push_slots;
use box_eval::Pair;
use name_scope::Program;
use osc_base::{RuleName, SlotName, Text};
use std::alloc::{AllocError, Global};

/// The text of a flat form of a program's scenario: how many slots it has, and for each its name, its least and its greatest
/// value; then how many rules it has, and the name of each. Places are written `FILE:LINE:COLUMN`, with the name of the file.
/// `docs/FORMATS.md` has an example. Out of memory is the only error.
pub fn listing(
    alloc: Global,
    program: &Program,
    slots: &[SlotName],
    ends: &[Pair],
    rules: &[RuleName],
) -> Result<Text, AllocError>
    ensures { IfOk result (λ text. text ≡ listing_text program.now slots.now ends.now rules.now) }
{
    let mut text = String::new(alloc);
    push_slot_part(alloc, &mut text, slots, ends)?;
    push_rule_part(alloc, &mut text, program, rules)?;
    Ok(Text::of(text))
}

/// Adds how many slots there are, and the line of each.
fn push_slot_part(
    alloc: Global,
    text: &mut String,
    slots: &[SlotName],
    ends: &[Pair],
) -> Result<(), AllocError>
    ensures { OnOk result (string_bytes text.new ≡ string_bytes text.old ++ (count_line (codes "slots") (length slots.now) ++ slot_lines slots.now ends.now)) }
{
    let count = slots.len();
    write!(text, "slots {count}\n")?;
    push_slots(alloc, text, slots, ends)
}

/// Adds how many rules there are, and the line of each.
fn push_rule_part(
    alloc: Global,
    text: &mut String,
    program: &Program,
    rules: &[RuleName],
) -> Result<(), AllocError>
    ensures { OnOk result (string_bytes text.new ≡ string_bytes text.old ++ (count_line (codes "rules") (length rules.now) ++ rule_lines program.now rules.now)) }
{
    let count = rules.len();
    write!(text, "rules {count}\n")?;
    push_rules(alloc, text, program, rules)
}
