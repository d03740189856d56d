ghost use Rattle.std.specs.Prelude.{◌≡◌, ℕ, ◌≤◌, List, Option, false, is_some, IfSome, IfOk, OnOk, OnErr, length};
ghost use Rattle.outside_io.specs.Counts.{Rises};
ghost use Rattle.outside_io.specs.Files.{Finds, NothingLeft, Takes, TellsAll};

use osc_base::{Row, Text};
use std::alloc::{AllocError, Global};

/// A file: its name and its bytes.
#[derive(Debug, Drop)]
pub struct NamedBytes {
    pub name: Text,
    pub bytes: Row<u8>,
}

impl NamedBytes {
    /// A file with copies of this name and these bytes.
    pub fn copy(alloc: Global, name: &str, bytes: &[u8]) -> Result<NamedBytes, AllocError>
        ensures { IfOk result (λ file. file ≡ record { name = name.now; bytes = bytes.now }) }
    {
        Ok(NamedBytes {
            name: Text::copy(alloc, name)?,
            bytes: Row::of(Vec::from_slice(alloc, bytes)?),
        })
    }
}

/// A call of a shelf failed. It has counted the fault.
#[derive(Debug, Clone, Copy, PartialEq, Eq)]
pub struct ShelfFault;

/// Files by their names, of which one at a time is fetched and then read piece by piece.
///
/// Contracts see its files and what is left of the fetched file, if it tells them, and its count of faults. If no file is
/// fetched, nothing is left. The count rises by one at each fault and at nothing else. So a caller's contract can say that
/// it doesn't use a shelf again after a failed call. The count stops at the last value of a `u64`.
pub trait Shelf {
    ghost use Rattle.outside_io.specs.declared.shelf.NamedBytes.{NamedBytes};

    ghost files: { Self → Option (List NamedBytes) };

    ghost left: { Self → Option (List ℕ) };

    ghost faults: { Self → ℕ };

    /// Fetches the first file of this name, and returns whether there is one. After false, and after a fault, no file
    /// is fetched.
    fn fetch(&mut self, name: &str) -> Result<bool, ShelfFault>
        ensures files_kept { files self.new ≡ files self.old }
        ensures telling_kept { is_some (left self.new) ≡ is_some (left self.old) }

        ensures finds { IfOk result (λ found. IfSome (files self.old) (λ all. Finds all name.now found (left self.new))) }
        ensures absent { result ≡ Ok false → NothingLeft (left self.new) }
        ensures fault { OnErr result (NothingLeft (left self.new)) }

        ensures never_falls { faults self.old ≤ faults self.new }
        ensures steady { OnOk result (faults self.new ≡ faults self.old) }
        ensures cause { OnErr result (Rises (faults self.old) (faults self.new)) };

    /// Moves a prefix of what is left of the fetched file to the beginning of `piece`, and returns its length. If the
    /// piece has room, the length is 0 only at the end, or if no file is fetched. After a fault no file is fetched.
    fn read(&mut self, piece: &mut [u8]) -> Result<usize, ShelfFault>
        ensures files_kept { files self.new ≡ files self.old }
        ensures telling_kept { is_some (left self.new) ≡ is_some (left self.old) }

        ensures fits { IfOk result (λ count. count ≤ length piece.new) }
        ensures takes { IfOk result (λ count. IfSome (left self.old) (λ before. Takes before count piece.new (left self.new))) }
        ensures fault { OnErr result (NothingLeft (left self.new)) }

        ensures never_falls { faults self.old ≤ faults self.new }
        ensures steady { OnOk result (faults self.new ≡ faults self.old) }
        ensures cause { OnErr result (Rises (faults self.old) (faults self.new)) };

    ghost tells_all: { (shelf : Self) → TellsAll (files shelf) (left shelf) };
}
