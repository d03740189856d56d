ghost use Rattle.std.specs.Prelude.{◌≡◌, ◌≤◌};
ghost use Rattle.outside_io.specs.Counts.{following};

use crate::{Shelf, ShelfFault};
use std::fs::File;
use std::io::{ErrorKind, Read};
use std::rt::Files;

/// The files of the system. It tells no content: contracts see its count of faults alone.
///
/// A name that the system says isn't found has no file. Every other failure is a fault, for example if the name is that
/// of a directory, or if the caller may not read the file.
#[derive(Drop)]
pub struct FileShelf<'a, R: Files> {
    rt: &'a R,
    fetched: Option<R::File>,
    faults: u64,
}

impl<'a, R: Files> FileShelf<'a, R> {
    /// The files that `rt` reaches. None is fetched yet.
    pub fn new(rt: &'a R) -> FileShelf<'a, R>
        ensures { ⟦<FileShelf<'a, R> as Shelf>⟧.faults result ≡ 0 }
    {
        FileShelf {
            rt,
            fetched: None,
            faults: 0,
        }
    }

    /// Lets go of the fetched file and counts a fault.
    fn fault(&mut self) -> ShelfFault
        ensures counted { self.new.faults ≡ following self.old.faults }
        ensures never_falls { self.old.faults ≤ self.new.faults }
    {
        self.fetched = None;
        self.faults = self.faults.saturating_add(1);
        ShelfFault
    }
}

impl<'a, R: Files> Shelf for FileShelf<'a, R> {
    ghost use Rattle.std.specs.Prelude.{None};

    ghost files = { λ _. None };

    ghost left = { λ _. None };

    ghost faults = { λ s. s.faults };

    fn fetch(&mut self, name: &str) -> Result<bool, ShelfFault> {
        self.fetched = None;
        match File::open(self.rt, name) {
            Ok(file) => {
                self.fetched = Some(file);
                Ok(true)
            }
            Err(error) if error.kind() == ErrorKind::NotFound => Ok(false),
            Err(_) => Err(self.fault()),
        }
    }

    fn read(&mut self, piece: &mut [u8]) -> Result<usize, ShelfFault> {
        let Some(file) = &mut self.fetched else {
            return Ok(0);
        };
        match file.read(piece) {
            Ok(count) => Ok(count),
            Err(_) => Err(self.fault()),
        }
    }

    ghost tells_all = { λ _ told. told };
}
