ghost use Rattle.std.specs.Prelude.{◌≡◌, ◌≤◌, IfOk, IfErr, IfSome, length};
ghost use Rattle.outside_io.specs.Files.{SomeFiles};
ghost use Rattle.text_load.specs.Texts.{Allows, Counts, IsCut};

use outside_io::osc_base::Row;
use outside_io::{ReadStop, Shelf, read_all};
use std::alloc::Global;

/// Why there is no text of a file.
#[derive(Debug, Clone, Copy, PartialEq, Eq)]
pub enum TextStop {
    /// There is no file of the name.
    Missing,
    /// The file has more bytes than the limit.
    Long,
    /// The shelf failed.
    Shelf,
    /// Out of memory.
    Memory,
}

/// All bytes of the shelf's file of this name, of which there may be at most `limit`.
pub fn load_text<H: Shelf>(
    alloc: Global,
    shelf: &mut H,
    name: &str,
    limit: usize,
) -> Result<Row<u8>, TextStop>
    ensures answer { SomeFiles (H.files shelf.old) (λ files. Allows files name.now limit result) }
    ensures counts { Counts result (H.faults shelf.old) (H.faults shelf.new) }
    ensures files_kept { H.files shelf.new ≡ H.files shelf.old }
{
    match shelf.fetch(name) {
        Ok(true) => read_text(alloc, shelf, limit),
        Ok(false) => Err(TextStop::Missing),
        Err(_) => Err(TextStop::Shelf),
    }
}

/// What is left of the fetched file.
fn read_text<H: Shelf>(alloc: Global, shelf: &mut H, limit: usize) -> Result<Row<u8>, TextStop>
    ensures within { IfOk result (λ bytes. length bytes ≤ limit) }
    ensures whole { IfOk result (λ bytes. IfSome (H.left shelf.old) (λ left. bytes ≡ left)) }
    ensures stops { IfErr result (IsCut (H.left shelf.old) limit) }
    ensures counts { Counts result (H.faults shelf.old) (H.faults shelf.new) }
    ensures files_kept { H.files shelf.new ≡ H.files shelf.old }
{
    match read_all(alloc, shelf, limit) {
        Ok(bytes) => Ok(bytes),
        Err(ReadStop::TooLong) => Err(TextStop::Long),
        Err(ReadStop::Shelf) => Err(TextStop::Shelf),
        Err(ReadStop::Memory) => Err(TextStop::Memory),
    }
}
