ghost use Rattle.std.specs.Prelude.{◌≡◌};

use std::alloc::AllocError;

/// Why a record wasn't verified.
#[derive(Debug, Clone, Copy, PartialEq, Eq)]
pub enum VerifyStop {
    /// The shelf failed.
    Shelf,
    /// The text has more than [`LIMIT`](crate::LIMIT) bytes.
    TooLong,
    /// The text is no record's: this is the first line, counted from 1, that no record's text has there.
    BadLine { line: u32 },
    /// Memory is missing.
    Memory,
}

/// Why no more bytes are read.
#[derive(Clone, Copy)]
pub(crate) enum SourceStop {
    Shelf,
    TooLong,
}

impl From<SourceStop> for VerifyStop {
    ghost use Rattle.record_text.specs.Stops.{told};

    ghost from_gives = { λ stop result. result ≡ told stop };

    fn from(stop: SourceStop) -> VerifyStop {
        match stop {
            SourceStop::Shelf => VerifyStop::Shelf,
            SourceStop::TooLong => VerifyStop::TooLong,
        }
    }
}

impl From<AllocError> for VerifyStop {
    ghost use Rattle.record_text.specs.declared.stop.VerifyStop.TheVariants.{Memory};

    ghost from_gives = { λ _ stop. stop ≡ Memory };

    fn from(_error: AllocError) -> VerifyStop {
        VerifyStop::Memory
    }
}
