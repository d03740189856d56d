//! The load of the program that is made.

ghost use Rattle.std.specs.Prelude.{◌≡◌, IfOk};
ghost use Rattle.made_programs.specs.MadeLoads.{IsMadeLoad, made_files};

use crate::sure_shelf::SureShelf;
use crate::text::made_text;
use name_scope::Program;
use outside_io::MemoryShelf;
use program_load::{LoadStop, Refusal, load};
use std::alloc::{AllocError, Global};

/// The name of the one file of the program.
const MAIN: &str = "made";

/// How many bytes a read of the shelf passes at most.
const PIECE: usize = 4096;

/// What the load of the program gives.
#[derive(Drop)]
pub enum MadeLoad {
    /// The whole program.
    Loaded(Program),
    /// The text holds no program, for this cause.
    Stopped(Refusal),
}

/// Loads the text of `made_text` as a main file named `made`. Out of memory is the only error.
pub fn made_program(alloc: Global, count: u32) -> Result<MadeLoad, AllocError>
    ensures { IfOk result (IsMadeLoad count) }
{
    let mut shelf = made_shelf(alloc, count)?;
    match load(alloc, &mut shelf, MAIN) {
        Ok(program) => Ok(MadeLoad::Loaded(program)),
        Err(LoadStop::At(refusal)) => Ok(MadeLoad::Stopped(refusal)),
        Err(LoadStop::Shelf(_)) => unreachable!("no call of the shelf fails"),
        Err(LoadStop::Memory) => Err(AllocError),
    }
}

/// A shelf of the one file.
fn made_shelf(alloc: Global, count: u32) -> Result<SureShelf, AllocError>
    ensures { IfOk result (λ sure. sure.shelf.files ≡ made_files count) }
{
    let text = made_text(alloc, count)?;
    let files = [(MAIN, text.as_str().as_bytes())];
    let shelf = MemoryShelf::of(alloc, &files, PIECE, &[])?;
    Ok(SureShelf { shelf })
}
