ghost use Rattle.std.specs.Prelude.{◌≡◌, ℕ, ◌+◌, ◌≤◌, [], ◌∷◌, Some, None, Ok, Err, IfSome, IfNone, OnOk};
ghost use Rattle.outside_io.specs.Files.{NothingLeft};
ghost use Rattle.record_text.specs.Source.{limit, IsFurther, Gives, IsAtEnd, IsTooLong, IsWithin, ReadsOn};
ghost use Rattle.record_text.specs.Stops.{source_failed};

use crate::stop::SourceStop;
use outside_io::Shelf;
use std::marker::Model;

/// The most bytes that a record's text may have: 256 MiB.
pub const LIMIT: u32 = 268_435_456;

/// The bytes of the fetched file, one at a time.
#[derive(Drop)]
pub(crate) struct Source {
    piece: [u8; 4096],
    /// The bytes of the piece between these two places weren't read yet.
    at: usize,
    filled: usize,
    /// The number of bytes that were read.
    given: u32,
}

impl Model for Source {
    ghost use Rattle.record_text.specs.Source.{Unread};

    ghost Value = { Unread };

    ghost use Rattle.record_text.specs.SourceFields.{unread, IsSource};

    ghost view = { unread };

    ghost invariant = { IsSource };
}

impl Source {
    /// Nothing was read yet.
    pub(crate) fn new() -> Source
        ensures { result ≡ record { bytes = []; given = 0 } }
    {
        Source {
            piece: [0; 4096],
            at: 0,
            filled: 0,
            given: 0,
        }
    }

    /// The next byte, or none at the end of the file.
    #[inline(always)]
    pub(crate) fn next<H: Shelf>(&mut self, shelf: &mut H) -> Result<Option<u8>, SourceStop>
        ensures further { IsFurther self.old self.new }
        ensures byte { (b : ℕ) → result ≡ Ok (Some b) → Gives (b ∷ []) self.old self.new (H.left shelf.old) (H.left shelf.new) }
        ensures end { result ≡ Ok None → Gives [] self.old self.new (H.left shelf.old) (H.left shelf.new) × IsAtEnd self.new (H.left shelf.new) }
        ensures too_long { result ≡ Err SourceStop.TooLong → IsTooLong self.old (H.left shelf.old) }
        ensures shelf { ReadsOn (H.files shelf.old) (H.files shelf.new) (H.left shelf.old) (H.left shelf.new) (H.faults shelf.old) (H.faults shelf.new) (source_failed result) }
    {
        if let Some(byte) = self.take() {
            return Ok(Some(byte));
        }
        self.fill(shelf)?;
        Ok(self.take())
    }

    /// The next byte of the piece, if any is left.
    #[inline(always)]
    fn take(&mut self) -> Option<u8>
        ensures byte { IfSome result (λ b. (self.old.bytes ≡ b ∷ self.new.bytes) × (self.new.given ≡ self.old.given + 1) × (self.new.given ≤ limit)) }
        ensures none { IfNone result ((self.new ≡ self.old) × (self.old.bytes ≡ []) × (self.new.given ≤ limit)) }
    {
        if self.at == self.filled {
            return None;
        }
        let byte = self.piece[self.at];
        self.at += 1;
        self.given += 1;
        Some(byte)
    }

    /// Reads the file to its end.
    pub(crate) fn to_end<H: Shelf>(&mut self, shelf: &mut H) -> Result<(), SourceStop>
        ensures further { IsFurther self.old self.new }
        ensures end { OnOk result (IsAtEnd self.new (H.left shelf.new)) }
        ensures within { OnOk result (IsWithin self.old (H.left shelf.old)) }
        ensures too_long { result ≡ Err SourceStop.TooLong → IsTooLong self.old (H.left shelf.old) }
        ensures shelf { ReadsOn (H.files shelf.old) (H.files shelf.new) (H.left shelf.old) (H.left shelf.new) (H.faults shelf.old) (H.faults shelf.new) (source_failed result) }
    {
        while let Some(_byte) = self.next(shelf)? {}
        Ok(())
    }

    /// Takes another piece of the file.
    fn fill<H: Shelf>(&mut self, shelf: &mut H) -> Result<(), SourceStop>
        requires { self.old.bytes ≡ [] }
        ensures further { IsFurther self.old self.new }
        ensures gives { OnOk result (Gives [] self.old self.new (H.left shelf.old) (H.left shelf.new)) }
        ensures end { OnOk result (self.new.bytes ≡ [] → NothingLeft (H.left shelf.new)) }
        ensures too_long { result ≡ Err SourceStop.TooLong → IsTooLong self.old (H.left shelf.old) }
        ensures shelf { ReadsOn (H.files shelf.old) (H.files shelf.new) (H.left shelf.old) (H.left shelf.new) (H.faults shelf.old) (H.faults shelf.new) (source_failed result) }
    {
        self.at = 0;
        self.filled = 0;
        let count = match shelf.read(&mut self.piece) {
            Ok(count) => count,
            Err(_) => return Err(SourceStop::Shelf),
        };
        if count > (LIMIT - self.given) as usize {
            return Err(SourceStop::TooLong);
        }
        self.filled = count;
        Ok(())
    }
}
