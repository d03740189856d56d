ghost use Rattle.std.specs.Prelude.{◌≡◌, ◌≤◌, ◌<◌, ◌↔◌, [], IsErr, IfOk, OnErr, length, take};
ghost use Rattle.outside_io.specs.Memory.{FailsWrite, write_count, after_write, after_write_fault};

use crate::{Sink, SinkFault};
use osc_base::Row;
use std::alloc::{AllocError, Global};
use std::marker::Model;

/// A sink in memory with a fixed room.
///
/// Its calls are numbered from 0, and a call whose number is among those given fails. A write fails too when the room is
/// full. A call takes at most the given number of bytes. Only `new` allocates.
#[derive(Debug, Drop)]
pub struct MemorySink {
    taken: Vec<u8>,
    room: usize,
    most: usize,
    failing: Row<u64>,
    calls: u64,
    faults: u64,
}

impl Model for MemorySink {
    ghost use Rattle.outside_io.specs.Memory.{SinkState};

    ghost Value = { SinkState };

    ghost use Rattle.outside_io.specs.SinkFields.{state_of, IsConsistent};

    ghost view = { state_of };

    ghost invariant = { IsConsistent };
}

impl MemorySink {
    /// An empty sink with room for `room` bytes. A call takes at most `most` bytes, and the calls whose numbers are in
    /// `failing` fail.
    pub fn new(
        alloc: Global,
        room: usize,
        most: usize,
        failing: Row<u64>,
    ) -> Result<MemorySink, AllocError>
        requires { 1 ≤ most }
        ensures { IfOk result (λ sink. sink ≡ record { contents = []; room = room; most = most; failing = failing; calls = 0; faults = 0 }) }
    {
        Ok(MemorySink {
            taken: Vec::with_capacity(alloc, room)?,
            room,
            most,
            failing,
            calls: 0,
            faults: 0,
        })
    }

    /// All bytes that the sink took, in order.
    pub fn written(&self) -> &[u8]
        ensures { result.now ≡ self.now.contents }
    {
        self.taken.as_slice()
    }
}

impl Sink for MemorySink {
    ghost use Rattle.std.specs.Prelude.{Some};
    ghost use Rattle.outside_io.specs.Memory.{SinkState};

    ghost contents = { λ (s : SinkState). Some s.contents };

    ghost faults = { λ (s : SinkState). s.faults };

    fn write(&mut self, piece: &[u8]) -> Result<usize, SinkFault>
        ensures fails { IsErr result ↔ FailsWrite self.old }
        ensures count { IfOk result (λ count. count ≡ write_count self.old piece.now) }
        ensures after { IfOk result (λ count. self.new ≡ after_write self.old (take count piece.now)) }
        ensures after_fault { OnErr result (self.new ≡ after_write_fault self.old) }
        ensures advances { IfOk result (λ count. 0 < length piece.now → 0 < count) }
        ensures never_falls { self.old.faults ≤ self.new.faults }
    {
        let call = self.calls;
        self.calls = call.saturating_add(1);
        let room = self.room - self.taken.len();
        if room == 0 || self.failing.as_slice().contains(&call) {
            self.faults = self.faults.saturating_add(1);
            return Err(SinkFault);
        }
        let count = piece.len().min(self.most).min(room);
        match self.taken.extend_from_slice(&piece[..count]) {
            Ok(()) => Ok(count),
            Err(AllocError) => unreachable!(),
        }
    }
}
