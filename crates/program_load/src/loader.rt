ghost use Rattle.std.specs.Prelude.{◌≡◌, ◌<◌, length, IfOk, IfSome};
ghost use Rattle.name_scope.specs.FileNumbers.{wanted_name};
ghost use Rattle.outside_io.specs.Files.{SomeFiles};
ghost use Rattle.program_load.specs.Outcome.{Allows, Counts};

use crate::stop::LoadStop;
use crate::turn::take_file;
use name_scope::{FileName, Program, Wanted};
use outside_io::Shelf;
use std::alloc::{AllocError, Global};

/// The name of the file whose turn it is, in memory of its own.
fn next_name(alloc: Global, program: &Program) -> Result<Option<FileName>, AllocError>
    ensures name { IfOk result (λ name. name ≡ wanted_name program.now) }
    ensures room { IfOk result (λ name. IfSome name (λ _. length program.now < 64)) }
{
    match program.wanted() {
        Some(wanted) => Ok(Some(FileName::of(alloc, wanted)?)),
        None => Ok(None),
    }
}

/// Loads the main file of this name and, in the order in which they are first asked for, all files that its files import.
///
/// Each file is fetched once, so imports may go in a circle; the library isn't fetched. The load stops at the first file that
/// isn't there, is too long, or has a fault: of its bytes, else of its tokens, else of its imports. `Missing` speaks of the
/// main file; when another isn't there the fault `MissingImport` stands at the import that asks for it first.
pub fn load<H: Shelf>(alloc: Global, shelf: &mut H, main: &str) -> Result<Program, LoadStop>
    ensures answer { SomeFiles (H.files shelf.old) (λ files. Allows files main.now result) }
    ensures counts { Counts result (H.faults shelf.old) (H.faults shelf.new) }
    ensures files_kept { H.files shelf.new ≡ H.files shelf.old }
{
    let mut program = Program::new(alloc);
    take_file(alloc, shelf, &mut program, Wanted::Named(main))?;
    while let Some(name) = next_name(alloc, &program)? {
        take_file(alloc, shelf, &mut program, name.wanted())?;
    }
    Ok(program)
}
