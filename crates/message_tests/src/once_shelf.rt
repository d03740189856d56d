//! A shelf that gives each file once, as a pipe does.

ghost use Rattle.std.specs.Prelude.{◌≡◌, ◌≤◌};
ghost use Rattle.outside_io.specs.Counts.{following};

use outside_io::{MemoryShelf, Shelf, ShelfFault};
use std::alloc::Global;

/// A shelf in memory on which a second fetch of a name fails. It tells no content.
#[derive(Drop)]
pub struct OnceShelf {
    shelf: MemoryShelf,
    names: Vec<String>,
    alloc: Global,
    faults: u64,
}

impl OnceShelf {
    /// The files of this shelf. None is fetched yet.
    pub fn new(alloc: Global, shelf: MemoryShelf) -> OnceShelf {
        OnceShelf {
            shelf,
            names: Vec::new(alloc),
            alloc,
            faults: 0,
        }
    }

    /// Counts a fault.
    fn fault(&mut self) -> ShelfFault
        ensures counted { self.new.faults ≡ following self.old.faults }
        ensures never_falls { self.old.faults ≤ self.new.faults }
    {
        self.faults = self.faults.saturating_add(1);
        ShelfFault
    }

    /// Notes that this name is fetched. False if it was before, or if memory runs out.
    fn is_new(&mut self, name: &str) -> bool
        ensures { self.new.faults ≡ self.old.faults }
    {
        let was_fetched = self.names.iter().any(|fetched| fetched.as_str() == name);
        match String::from_str(self.alloc, name) {
            Ok(name) => !was_fetched && self.names.push(name).is_ok(),
            Err(_) => false,
        }
    }
}

impl Shelf for OnceShelf {
    ghost use Rattle.std.specs.Prelude.{None};

    ghost files = { λ _. None };

    ghost left = { λ _. None };

    ghost faults = { λ s. s.faults };

    fn fetch(&mut self, name: &str) -> Result<bool, ShelfFault> {
        if !self.is_new(name) {
            return Err(self.fault());
        }
        match self.shelf.fetch(name) {
            Ok(found) => Ok(found),
            Err(_) => Err(self.fault()),
        }
    }

    fn read(&mut self, piece: &mut [u8]) -> Result<usize, ShelfFault> {
        match self.shelf.read(piece) {
            Ok(count) => Ok(count),
            Err(_) => Err(self.fault()),
        }
    }

    ghost tells_all = { λ _ told. told };
}
