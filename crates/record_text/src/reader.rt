ghost use Rattle.std.specs.Prelude.{◌≡◌, ◌≢◌, ℕ, ◌+◌, ◌≤◌, [], ◌∷◌, ◌++◌, List, Some, IfOk, IfErr, OnOk};
ghost use Rattle.record_text.specs.declared.stop.VerifyStop.TheVariants.{BadLine};
ghost use Rattle.outside_io.specs.Files.{NothingLeft};
ghost use Rattle.record_text.specs.Source.{limit, rest_of, ReadsOn};
ghost use Rattle.record_text.specs.Stops.{shelf_failed};
ghost use Rattle.record_text.specs.Reader.{NoneWanted, GivesLine, Stops};
ghost use Rattle.record_text.specs.WholeLines.{whole_line};

use crate::ReadLine;
use crate::found::{Wanted, is_nothing, wanted_line};
use crate::next_line::{LONGEST, next_line, read_on};
use crate::picks::Picks;
use crate::source::Source;
use crate::stop::VerifyStop;
use arrayvec::ArrayVec;
use outside_io::Shelf;
use std::marker::Model;

/// Reads a text line by line. After an error it isn't used again.
#[derive(Drop)]
pub struct Reader {
    source: Source,
    /// The bytes of the line that was read last, as far as they can be a record's.
    held: ArrayVec<u8, LONGEST>,
    /// The rules of the sum that was read last.
    picks: Picks,
    /// The number of lines that were read.
    lines: u32,
}

impl Model for Reader {
    ghost use Rattle.record_text.specs.Reader.{Reading};

    ghost Value = { Reading };

    ghost use Rattle.record_text.specs.ReaderFields.{reading, IsReader};

    ghost view = { reading };

    ghost invariant = { IsReader };
}

impl Reader {
    /// Nothing was read yet.
    pub fn new() -> Reader
        ensures { result ≡ record { unread = record { bytes = []; given = 0 }; picks = []; lines = 0 } }
    {
        Reader {
            source: Source::new(),
            held: ArrayVec::new(),
            picks: Picks::new(),
            lines: 0,
        }
    }

    /// The number of lines that were read.
    pub fn lines(&self) -> u32
        ensures lines { result ≡ self.now.lines }
        ensures few { result ≤ limit }
    {
        self.lines
    }

    /// The rules of the sum that was read last.
    pub fn picks(&self) -> &Picks
        ensures { result.now ≡ self.now.picks }
    {
        &self.picks
    }

    /// Reads the next line, which is to be one that is wanted; else the text is read to its end.
    pub fn expect<H: Shelf>(
        &mut self,
        shelf: &mut H,
        wanted: Wanted,
    ) -> Result<ReadLine, VerifyStop>
        ensures few { self.new.lines ≤ limit }
        ensures within { self.new.unread.given ≤ limit }
        ensures line { IfOk result (λ line. GivesLine (whole_line self.new.picks line) wanted self.old self.new (H.left shelf.old) (H.left shelf.new)) }
        ensures stop { IfErr result (λ stop. Stops stop (NoneWanted wanted) self.old (H.left shelf.old) (H.left shelf.new)) }
        ensures shelf { ReadsOn (H.files shelf.old) (H.files shelf.new) (H.left shelf.old) (H.left shelf.new) (H.faults shelf.old) (H.faults shelf.new) (shelf_failed result) }
    {
        let found = next_line(&mut self.source, &mut self.held, &mut self.picks, shelf)?;
        let ended = is_nothing(found);
        if let Some(line) = wanted_line(wanted, found) {
            self.lines += 1;
            return Ok(line);
        }
        read_on(&mut self.source, shelf, ended)?;
        Err(self.bad_line())
    }

    /// Sees that the text ends here; else it is read to its end.
    pub fn expect_end<H: Shelf>(&mut self, shelf: &mut H) -> Result<(), VerifyStop>
        ensures lines { self.new.lines ≡ self.old.lines }
        ensures end { OnOk result ((rest : List ℕ) → rest_of self.old.unread (H.left shelf.old) ≡ Some rest → rest ≡ []) }
        ensures ended { OnOk result (NothingLeft (H.left shelf.new)) }
        ensures stop { IfErr result (λ stop. Stops stop (λ rest. rest ≢ []) self.old (H.left shelf.old) (H.left shelf.new)) }
        ensures shelf { ReadsOn (H.files shelf.old) (H.files shelf.new) (H.left shelf.old) (H.left shelf.new) (H.faults shelf.old) (H.faults shelf.new) (shelf_failed result) }
    {
        match self.source.next(shelf)? {
            None => Ok(()),
            Some(_byte) => {
                self.source.to_end(shelf)?;
                Err(self.bad_line())
            }
        }
    }

    /// The line after those that were read is no record's.
    fn bad_line(&self) -> VerifyStop
        ensures { result ≡ BadLine (self.now.lines + 1) }
    {
        VerifyStop::BadLine {
            line: self.lines + 1,
        }
    }
}
