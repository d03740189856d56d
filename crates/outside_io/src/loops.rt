ghost use Rattle.std.specs.Prelude.{◌≡◌, ◌≢◌, ◌<◌, ◌≤◌, is_some, IfSome, IfOk, OnOk, OnErr, length};
ghost use Rattle.std.specs.Io.KnownBytes.{append_known};
ghost use Rattle.outside_io.specs.Counts.{Rises};
ghost use Rattle.outside_io.specs.Files.{NothingLeft};
ghost use Rattle.outside_io.specs.Bytes.{AppendsPart};

use crate::{Shelf, Sink};
use osc_base::Row;
use std::alloc::{AllocError, Global};

/// Why a file wasn't read to its end.
#[derive(Debug, Clone, Copy, PartialEq, Eq)]
pub enum ReadStop {
    /// The shelf failed.
    Shelf,
    /// More bytes were left than the limit.
    TooLong,
    /// Out of memory.
    Memory,
}

/// Why not all bytes were written.
#[derive(Debug, Clone, Copy, PartialEq, Eq)]
pub enum SinkStop {
    /// The sink failed.
    Sink,
}

impl From<AllocError> for ReadStop {
    ghost use Rattle.outside_io.specs.declared.loops.ReadStop.TheVariants.{Memory};

    ghost from_gives = { λ _ stop. stop ≡ Memory };

    fn from(_error: AllocError) -> ReadStop {
        ReadStop::Memory
    }
}

/// Reads the rest of the fetched file: nothing if no file is fetched.
///
/// `TooLong` comes when more than `limit` bytes were left, `Shelf` when the shelf failed, and `Memory` when it is out of
/// memory.
pub fn read_all<H: Shelf>(alloc: Global, shelf: &mut H, limit: usize) -> Result<Row<u8>, ReadStop>
    ensures all { IfOk result (λ bytes. IfSome (H.left shelf.old) (λ before. bytes ≡ before)) }
    ensures within { IfOk result (λ bytes. length bytes ≤ limit) }
    ensures end { OnOk result (NothingLeft (H.left shelf.new)) }

    ensures too_long { result ≡ Err ReadStop.TooLong → IfSome (H.left shelf.old) (λ before. limit < length before) }
    ensures fault { result ≡ Err ReadStop.Shelf → NothingLeft (H.left shelf.new) }
    ensures cause { result ≡ Err ReadStop.Shelf → Rises (H.faults shelf.old) (H.faults shelf.new) }

    ensures never_falls { H.faults shelf.old ≤ H.faults shelf.new }
    ensures steady { result ≢ Err ReadStop.Shelf → H.faults shelf.new ≡ H.faults shelf.old }
    ensures files_kept { H.files shelf.new ≡ H.files shelf.old }
    ensures telling_kept { is_some (H.left shelf.new) ≡ is_some (H.left shelf.old) }
{
    let mut bytes = Vec::new(alloc);
    let mut piece = [0u8; 4096];
    loop {
        let count = match shelf.read(&mut piece) {
            Ok(count) => count,
            Err(_) => return Err(ReadStop::Shelf),
        };
        if count == 0 {
            return Ok(Row::of(bytes));
        }
        if count > limit - bytes.len() {
            return Err(ReadStop::TooLong);
        }
        bytes.extend_from_slice(&piece[..count])?;
    }
}

/// Writes all of `bytes`. Each call offers all that is left. It doesn't allocate.
///
/// `Sink` comes when the sink failed. A prefix of the bytes is written then.
pub fn write_all<K: Sink>(sink: &mut K, bytes: &[u8]) -> Result<(), SinkStop>
    ensures whole { OnOk result (K.contents sink.new ≡ append_known (K.contents sink.old) bytes.now) }
    ensures part { OnErr result (AppendsPart (K.contents sink.old) (K.contents sink.new) bytes.now) }
    ensures cause { OnErr result (Rises (K.faults sink.old) (K.faults sink.new)) }

    ensures never_falls { K.faults sink.old ≤ K.faults sink.new }
    ensures steady { OnOk result (K.faults sink.new ≡ K.faults sink.old) }
    ensures telling_kept { is_some (K.contents sink.new) ≡ is_some (K.contents sink.old) }
{
    let mut done = 0;
    while done < bytes.len() {
        match sink.write(&bytes[done..]) {
            Ok(count) => done += count,
            Err(_) => return Err(SinkStop::Sink),
        }
    }
    Ok(())
}
