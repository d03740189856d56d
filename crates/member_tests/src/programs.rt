//! The programs that tests look at.

use name_scope::Program;
use outside_io::MemoryShelf;
use program_load::load;
use std::alloc::{AllocError, Global};

/// A program with each kind of type, an extended enum, a conditional subtype and an extended struct.
pub const PARTS: &str = "type pace is SI(m: 1, s: -1)
unit kph of pace is SI(m: 1, s: -1, factor: 0.5, offset: 2)
enum paint: [red, green = 5]
extend paint: [blue]
struct part:
    colour: paint
    fast: bool
struct wing inherits part(colour == blue):
    span: int
struct body inherits part:
    names: list of string = [\"b\", \"a\"]
extend part:
    size: pace
actor car
action car.honk
scenario top
";

/// The program of one file, if it can be loaded.
pub fn loaded(alloc: Global, source: &str) -> Result<Option<Program>, AllocError> {
    let files: [(&str, &[u8]); 1] = [("main.osc", source.as_bytes())];
    let mut shelf = MemoryShelf::of(alloc, &files, 4096, &[])?;
    match load(alloc, &mut shelf, "main.osc") {
        Ok(program) => Ok(Some(program)),
        Err(_) => Ok(None),
    }
}
