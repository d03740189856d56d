//! The first fault of a program, as a text.

use osc_base::Stop;
use outside_io::MemoryShelf;
use program_load::load;
use std::alloc::{AllocError, Global};
use type_build::build_types;

/// Number, line and column of the fault for which a source has no types.
pub fn told(alloc: Global, source: &str) -> Result<String, AllocError> {
    let files: [(&str, &[u8]); 1] = [("main.osc", source.as_bytes())];
    let mut shelf = MemoryShelf::of(alloc, &files, 1_048_576, &[])?;
    let Ok(program) = load(alloc, &mut shelf, "main.osc") else {
        return String::from_str(alloc, "no program");
    };
    match build_types(alloc, &program) {
        Ok(_) => String::from_str(alloc, "none"),
        Err(Stop::At(fault)) => format!(in alloc;
            "{} {}:{}",
            fault.code.number(),
            fault.place.line,
            fault.place.column
        ),
        Err(Stop::Memory) => String::from_str(alloc, "out of memory"),
    }
}
