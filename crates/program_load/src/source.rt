ghost use Rattle.std.specs.Prelude.{◌≡◌, ◌≤◌, ◌<◌, ℕ, Some, IfOk, IfErr, IfSome, length};
ghost use Rattle.outside_io.specs.Counts.{Rises};
ghost use Rattle.outside_io.specs.Files.{file_named};
ghost use Rattle.name_scope.specs.declared.names.FileName.{FileName};
ghost use Rattle.program_load.specs.Loading.{source_limit};
ghost use Rattle.program_load.specs.Steps.{IsFound, IsCut, HasNoSource, CountsFile};

use osc_base::{Fault, Row};
use outside_io::{ReadStop, Shelf, read_all};
use std::alloc::{AllocError, Global};

/// The longest source, in bytes.
const SOURCE_LIMIT: usize = 1_048_576;

/// Why there is no tree of a file.
#[derive(Debug, Clone, Copy, PartialEq, Eq)]
pub enum FileStop {
    /// There is no file of the name.
    Missing,
    /// The file is longer than a source may be.
    Long,
    /// The first fault of its bytes, or else that of its tokens.
    At(Fault),
    /// The shelf failed.
    Shelf,
    /// Memory was missing.
    Memory,
}

impl From<AllocError> for FileStop {
    ghost use Rattle.program_load.specs.declared.source.FileStop.TheVariants.{Memory};
    ghost use Rattle.std.specs.Prelude.{◌≡◌};

    ghost from_gives = { λ _ e. e ≡ Memory };

    fn from(_error: AllocError) -> FileStop {
        FileStop::Memory
    }
}

/// The source of the shelf's file of this name.
pub fn fetch_source<H: Shelf>(alloc: Global, shelf: &mut H, name: &str) -> Result<Row<u8>, FileStop>
    ensures within { IfOk result (λ source. length source ≤ source_limit) }
    ensures found { IfOk result (λ source. IsFound (H.files shelf.old) (FileName.Named name.now) (Some source)) }
    ensures stops { IfErr result (HasNoSource (H.files shelf.old) (FileName.Named name.now)) }
    ensures counts { CountsFile result (H.faults shelf.old) (H.faults shelf.new) }
    ensures files_kept { H.files shelf.new ≡ H.files shelf.old }
{
    match shelf.fetch(name) {
        Ok(true) => read_source(alloc, shelf),
        Ok(false) => Err(FileStop::Missing),
        Err(_) => Err(FileStop::Shelf),
    }
}

/// What is left of the fetched file.
fn read_source<H: Shelf>(alloc: Global, shelf: &mut H) -> Result<Row<u8>, FileStop>
    ensures within { IfOk result (λ source. length source ≤ source_limit) }
    ensures whole { IfOk result (λ source. IfSome (H.left shelf.old) (λ left. source ≡ left)) }
    ensures stops { IfErr result (IsCut (H.left shelf.old)) }
    ensures counts { CountsFile result (H.faults shelf.old) (H.faults shelf.new) }
    ensures files_kept { H.files shelf.new ≡ H.files shelf.old }
{
    match read_all(alloc, shelf, SOURCE_LIMIT) {
        Ok(source) => Ok(source),
        Err(ReadStop::TooLong) => Err(FileStop::Long),
        Err(ReadStop::Shelf) => Err(FileStop::Shelf),
        Err(ReadStop::Memory) => Err(FileStop::Memory),
    }
}
