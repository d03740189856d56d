//! A shelf that keeps the files that were read from it.

ghost use Rattle.std.specs.Prelude.{◌≡◌};

use osc_base::{Row, Text};
use outside_io::{MemoryShelf, NamedBytes, Shelf, ShelfFault};
use std::alloc::Global;

/// The longest file that is kept, in bytes: the longest run. No source is longer.
const LONGEST: usize = 16_777_216;
/// How many bytes the kept files pass at a time.
const PIECE: usize = 4096;

/// The file that is being read.
#[derive(Drop)]
struct Reading {
    name: Text,
    bytes: Vec<u8>,
}

/// A shelf that hands every call on to another one, and keeps each file that is read to its end.
///
/// Contracts see the other shelf alone. If memory runs out, a file isn't kept.
#[derive(Drop)]
pub struct NotedShelf<H: Shelf> {
    shelf: H,
    alloc: Global,
    kept: Row<NamedBytes>,
    reading: Option<Reading>,
}

impl<H: Shelf + Drop> NotedShelf<H> {
    /// A shelf that has kept nothing yet.
    pub fn new(alloc: Global, shelf: H) -> NotedShelf<H> {
        NotedShelf {
            shelf,
            alloc,
            kept: Row::new(alloc),
            reading: None,
        }
    }

    /// The files that are kept. The other shelf is let go of, so nothing is read from it again.
    pub fn into_kept(self) -> MemoryShelf {
        MemoryShelf::new(self.kept, PIECE, Row::new(self.alloc))
    }
}

impl<H: Shelf> NotedShelf<H> {
    /// Begins to keep the fetched file.
    fn begin(&mut self, name: &str)
        ensures { self.new.shelf ≡ self.old.shelf }
    {
        self.reading = reading_of(self.alloc, name);
    }

    /// Keeps bytes that were read.
    fn note(&mut self, bytes: &[u8])
        ensures { self.new.shelf ≡ self.old.shelf }
    {
        if let Some(reading) = self.reading.take() {
            self.reading = reading.with(bytes);
        }
    }

    /// Keeps the file, which was read to its end.
    fn keep(&mut self)
        ensures { self.new.shelf ≡ self.old.shelf }
    {
        if let Some(reading) = self.reading.take() {
            let _ = self.kept.push(reading.into_file());
        }
    }
}

/// A file of which nothing is read yet. `None` if memory runs out.
fn reading_of(alloc: Global, name: &str) -> Option<Reading> {
    Some(Reading {
        name: Text::copy(alloc, name).ok()?,
        bytes: Vec::new(alloc),
    })
}

impl Reading {
    /// The file with further bytes. `None` if it is too long then, or memory runs out.
    fn with(mut self, bytes: &[u8]) -> Option<Reading> {
        if bytes.len() > LONGEST.saturating_sub(self.bytes.len()) {
            return None;
        }
        self.bytes.extend_from_slice(bytes).ok()?;
        Some(self)
    }

    fn into_file(self) -> NamedBytes {
        NamedBytes {
            name: self.name,
            bytes: Row::of(self.bytes),
        }
    }
}

impl<H: Shelf> Shelf for NotedShelf<H> {
    ghost files = { λ s. H.files s.shelf };

    ghost left = { λ s. H.left s.shelf };

    ghost faults = { λ s. H.faults s.shelf };

    fn fetch(&mut self, name: &str) -> Result<bool, ShelfFault> {
        self.reading = None;
        match self.shelf.fetch(name) {
            Ok(true) => {
                self.begin(name);
                Ok(true)
            }
            Ok(false) => Ok(false),
            Err(fault) => Err(fault),
        }
    }

    fn read(&mut self, piece: &mut [u8]) -> Result<usize, ShelfFault> {
        match self.shelf.read(piece) {
            Ok(count) => {
                if count > 0 {
                    self.note(piece.get(..count).unwrap_or(piece));
                } else if !piece.is_empty() {
                    self.keep();
                }
                Ok(count)
            }
            Err(fault) => {
                self.reading = None;
                Err(fault)
            }
        }
    }

    ghost tells_all = { λ s. H.tells_all s.shelf };
}
