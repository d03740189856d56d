//! A run as a page for a browser.

ghost use Rattle.std.specs.Prelude.{◌≡◌, ◌++◌, codes, flat_map, IfOk, OnOk};
ghost use Rattle.std.specs.String.{string_bytes};
ghost use Rattle.run_exports.specs.PageText.{head, marked, page_text, tail};

use crate::page_parts::{HEAD, TAIL};
use osc_base::Text;
use run_check::{Run, write_run};
use std::alloc::{AllocError, Global};

/// A run as one HTML page without outside parts, which shows the run from above and over time. The page holds the run's own text. Out
/// of memory is the only error.
pub fn page(alloc: Global, run: &Run) -> Result<Text, AllocError>
    ensures { IfOk result (λ text. text ≡ page_text run.now) }
{
    let written = write_run(alloc, run)?;
    let mut text = String::new(alloc);
    push_head(&mut text)?;
    push_marked(&mut text, written.as_str())?;
    push_tail(&mut text)?;
    Ok(Text::of(text))
}

#[tactic(auto, unfolding(crate::specs::PageText::head))]
fn push_head(text: &mut String) -> Result<(), AllocError>
    ensures { OnOk result (string_bytes text.new ≡ string_bytes text.old ++ head) }
{
    text.push_str(HEAD)
}

#[tactic(auto, unfolding(crate::specs::PageText::tail))]
fn push_tail(text: &mut String) -> Result<(), AllocError>
    ensures { OnOk result (string_bytes text.new ≡ string_bytes text.old ++ tail) }
{
    text.push_str(TAIL)
}

/// Adds a text with `\u003c` in place of each `<`.
fn push_marked(text: &mut String, of: &str) -> Result<(), AllocError>
    ensures { OnOk result (string_bytes text.new ≡ string_bytes text.old ++ flat_map marked of.now) }
{
    let mut rest = of;
    while let Some((front, back)) = rest.split_once('<') {
        push_piece(text, front)?;
        rest = back;
    }
    text.push_str(rest)
}

/// Adds what stands before a `<`, and then that.
fn push_piece(text: &mut String, front: &str) -> Result<(), AllocError>
    ensures { OnOk result (string_bytes text.new ≡ string_bytes text.old ++ (front.now ++ codes "\\u003c")) }
{
    text.push_str(front)?;
    text.push_str("\\u003c")
}
