//! A shelf in memory of which no call fails.

ghost use Rattle.std.specs.Prelude.{◌≡◌, []};

use outside_io::{MemoryShelf, Shelf, ShelfFault};

/// A shelf in memory that was told to fail at no call. Its count of faults is always 0, so no load can blame it.
#[derive(Drop)]
pub struct SureShelf {
    pub shelf: MemoryShelf,
    ghost sure: { shelf.failing ≡ [] },
}

impl Shelf for SureShelf {
    ghost use Rattle.std.specs.Prelude.{Some};

    ghost files = { λ s. Some s.shelf.files };

    ghost left = { λ s. Some s.shelf.left };

    ghost faults = { λ _. 0 };

    fn fetch(&mut self, name: &str) -> Result<bool, ShelfFault> {
        match self.shelf.fetch(name) {
            Ok(found) => Ok(found),
            Err(_) => unreachable!("no call fails"),
        }
    }

    fn read(&mut self, piece: &mut [u8]) -> Result<usize, ShelfFault> {
        match self.shelf.read(piece) {
            Ok(count) => Ok(count),
            Err(_) => unreachable!("no call fails"),
        }
    }

    ghost tells_all = { λ _ told. told };
}
