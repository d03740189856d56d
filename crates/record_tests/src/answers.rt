//! What is answered of texts, over shelves of one file.
ghost use Rattle.std.specs.Prelude.{◌≤◌};
ghost use Rattle.box_eval.specs.Rules.{IsFlat};

use crate::rows::flat;
use box_eval::Flat;
use osc_base::{Row, Text};
use outside_io::{MemoryShelf, NamedBytes, Shelf};
use refute_check::verify;
use std::alloc::{AllocError, Global};
use std::process::Abort;
use std::test::Fail;

/// A shelf whose file `r` has these bytes, and of whose calls those with these numbers fail.
fn shelf(
    alloc: Global,
    text: &[u8],
    most: usize,
    failing: &[u64],
) -> Result<MemoryShelf, AllocError>
    requires { 1 ≤ most }
{
    let mut files = Row::new(alloc);
    files.push(NamedBytes {
        name: Text::copy(alloc, "r")?,
        bytes: Row::of(Vec::from_slice(alloc, text)?),
    })?;
    Ok(MemoryShelf::new(files, most, Row::of(Vec::from_slice(alloc, failing)?)))
}

/// What is answered of a text, where a call passes at most so many bytes.
pub(crate) fn answer(
    alloc: Global,
    flat: &Flat,
    text: &[u8],
    most: usize,
    failing: &[u64],
) -> Result<String, AllocError>
    requires flat { IsFlat flat.now }
    requires most { 1 ≤ most }
{
    let mut shelf = shelf(alloc, text, most, failing)?;
    let _found = shelf.fetch("r");
    format!(in alloc; "{:?}", verify(alloc, flat, &mut shelf))
}

/// Sees that each text has its answer, where a call passes one byte and where it passes 4,096.
pub(crate) fn have_answers(
    rt: &(impl Abort + AllocGlobal),
    rows: &[(&[u8], &str)],
) -> Result<(), Fail> {
    let alloc = rt.alloc();
    let flat = flat(alloc)?;
    for (text, want) in rows {
        assert_eq!(rt; answer(alloc, &flat, text, 1, &[])?.as_str(), *want);
        assert_eq!(rt; answer(alloc, &flat, text, 4096, &[])?.as_str(), *want);
    }
    Ok(())
}
