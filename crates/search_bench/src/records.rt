//! Records that are read from a file of the system.

use crate::forms;
use anyhow::{Result, bail};
use outside_io::{FileShelf, Shelf};
use refute_check::{Verified, verify};
use search_tests::is_flat;
use std::rt::Files;

/// What the record of a file is, against a form of so many slots and rules.
pub(crate) fn verified<R: Files + AllocGlobal>(rt: &R, slots: u32, file: &str) -> Result<Verified> {
    let alloc = rt.alloc();
    let flat = forms::never_below_zero(alloc, slots)?;
    if !is_flat(&flat) {
        bail!("the form is no flat form");
    }
    let mut shelf = FileShelf::new(rt);
    if shelf.fetch(file) != Ok(true) {
        bail!("the file can't be read");
    }
    match verify(alloc, &flat, &mut shelf) {
        Ok(verified) => Ok(verified),
        Err(stop) => bail!("the record can't be verified: {stop:?}"),
    }
}
