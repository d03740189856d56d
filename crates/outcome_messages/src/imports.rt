//! A warning of an import that brings the library under another name than its own.

use message_parts::{bytes_of, source_of};
use mistake_cases::first_part;
use outside_io::MemoryShelf;
use std::alloc::{AllocError, Global};

/// Puts a warning for each import of a source that begins with `osc` and doesn't go on with `.standard`.
pub fn put_imports(
    alloc: Global,
    text: &mut String,
    file: &str,
    kept: &mut MemoryShelf,
) -> Result<(), AllocError> {
    let bytes = source_of(alloc, file, kept)?;
    let Some(source) = bytes_of(&bytes) else {
        return Ok(());
    };
    let Ok(source) = str::from_utf8(source) else {
        return Ok(());
    };
    let mut number: u32 = 0;
    for line in source.lines() {
        number = number.saturating_add(1);
        if let Some(name) = odd_import(line) {
            write!(
                text,
                "warning: {file}:{number}: `import {name}` brings the one library, which is called `osc.standard`\n"
            )?;
        }
    }
    Ok(())
}

/// The name that a line imports, if it is an odd one for the library.
fn odd_import(line: &str) -> Option<&str> {
    let name = first_part(line.strip_prefix("import ")?.trim_start());
    let is_odd = name.starts_with("osc.") && name != "osc.standard" && name != "osc.standard.all";
    if is_odd { Some(name) } else { None }
}
