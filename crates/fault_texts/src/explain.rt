//! What `osc explain` writes.

ghost use Rattle.std.specs.Prelude.{◌≡◌, ◌++◌, IfOk, OnOk, flat_map, string_bytes};
ghost use Rattle.fault_texts.specs.Explained as explained;
ghost use Rattle.fault_texts.specs.Said.{said_by};

use crate::form::CodeText;
use crate::texts::{fault_text, status_text};
use crate::topics::{CODES, STATUSES, Status, Topic};
use osc_base::{FaultCode, Text};
use std::alloc::{AllocError, Global};

/// What stands before the example of a code, and behind it before the answer.
pub(crate) const FAULT_EXAMPLE: &str = "\nExample, the file main.osc:\n\n```\n";

pub(crate) const FAULT_ANSWER: &str = "```\n\nosc generate main.osc top writes: ";

/// The same of a status.
pub(crate) const STATUS_EXAMPLE: &str = "\nExample:\n\n```\n";

pub(crate) const STATUS_ANSWER: &str = "```\n\nIt writes: ";

/// What stands before the way to mend it.
pub(crate) const MENDING: &str = "\n\nHow to mend it:\n\n";

/// The first lines of the list of topics.
pub(crate) const HEADING: &str = concat!(
    "osc explain CODE tells what a code means, with an example and how to mend it.\n",
    "\n",
    "Codes of faults, as in the line fault CODE FILE:LINE:COLUMN:\n",
);

/// What stands in the list before the statuses.
pub(crate) const STATUS_HEADING: &str = "\nStatuses with which osc refuses:\n";

/// What there is to say of one topic. Each line is ended by a line feed.
pub fn explanation(alloc: Global, topic: Topic) -> Result<Text, AllocError>
    ensures { IfOk result (λ text. text ≡ explained.explanation topic) }
{
    match topic {
        Topic::Fault(code) => fault_explanation(alloc, code),
        Topic::Status(status) => status_explanation(alloc, status),
    }
}

fn fault_explanation(alloc: Global, code: FaultCode) -> Result<Text, AllocError>
    ensures { IfOk result (λ text. text ≡ explained.fault_explanation code) }
{
    let said = fault_text(code);
    let (number, title) = (code.number(), said.title);
    let mut text = format!(in alloc; "fault {number}: {title}\n\n")?;
    put_said(&mut text, &said, FAULT_EXAMPLE, FAULT_ANSWER)?;
    Ok(Text::of(text))
}

fn status_explanation(alloc: Global, status: Status) -> Result<Text, AllocError>
    ensures { IfOk result (λ text. text ≡ explained.status_explanation status) }
{
    let said = status_text(status);
    let (number, title) = (status.number(), said.title);
    let mut text = format!(in alloc; "status {number}: {title}\n\n")?;
    put_said(&mut text, &said, STATUS_EXAMPLE, STATUS_ANSWER)?;
    Ok(Text::of(text))
}

/// Puts all but the title of what is said.
fn put_said(
    text: &mut String,
    said: &CodeText,
    example: &str,
    answer: &str,
) -> Result<(), AllocError>
    ensures { OnOk result (string_bytes text.new ≡ explained.laid_out (string_bytes text.old) (said_by said.now) example.now answer.now) }
{
    put_two(text, said.meaning, example)?;
    put_two(text, said.example, answer)?;
    put_two(text, said.answer, MENDING)?;
    text.push_str(said.mending)
}

fn put_two(text: &mut String, first: &str, second: &str) -> Result<(), AllocError>
    ensures { OnOk result (string_bytes text.new ≡ string_bytes text.old ++ first.now ++ second.now) }
{
    text.push_str(first)?;
    text.push_str(second)
}

/// All topics, one in each line.
pub fn topic_list(alloc: Global) -> Result<Text, AllocError>
    ensures { IfOk result (λ text. text ≡ explained.topic_list) }
{
    let mut text = String::from_str(alloc, HEADING)?;
    put_codes(&mut text, &CODES)?;
    text.push_str(STATUS_HEADING)?;
    put_statuses(&mut text, &STATUSES)?;
    Ok(Text::of(text))
}

fn put_codes(text: &mut String, codes: &[FaultCode]) -> Result<(), AllocError>
    ensures { OnOk result (string_bytes text.new ≡ string_bytes text.old ++ flat_map explained.code_line codes.now) }
{
    for code in codes {
        put_code(text, *code)?;
    }
    Ok(())
}

fn put_statuses(text: &mut String, statuses: &[Status]) -> Result<(), AllocError>
    ensures { OnOk result (string_bytes text.new ≡ string_bytes text.old ++ flat_map explained.status_line statuses.now) }
{
    for status in statuses {
        put_status(text, *status)?;
    }
    Ok(())
}

fn put_code(text: &mut String, code: FaultCode) -> Result<(), AllocError>
    ensures { OnOk result (string_bytes text.new ≡ string_bytes text.old ++ explained.code_line code) }
{
    let (number, title) = (code.number(), fault_text(code).title);
    write!(text, "  {number}  {title}\n")
}

fn put_status(text: &mut String, status: Status) -> Result<(), AllocError>
    ensures { OnOk result (string_bytes text.new ≡ string_bytes text.old ++ explained.status_line status) }
{
    let (number, title) = (status.number(), status_text(status).title);
    write!(text, "  {number}  {title}\n")
}
