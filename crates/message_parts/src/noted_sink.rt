//! A sink that keeps the line that went through it, and the rules that a record is closed by.

ghost use Rattle.std.specs.Prelude.{◌≡◌};

use crate::closed_rules::ClosedRules;
use outside_io::{Sink, SinkFault};
use std::alloc::Global;

/// How many bytes are kept: more than the longest line with which `osc` refuses, as far as the system has such names.
const ROOM: usize = 8192;

/// A sink that hands everything on to another one, and keeps the first bytes of it.
///
/// Contracts see the other sink alone. If memory runs out, fewer bytes are kept.
#[derive(Drop)]
pub struct NotedSink<K: Sink> {
    sink: K,
    note: Vec<u8>,
    closed: ClosedRules,
}

impl<K: Sink> NotedSink<K> {
    /// A sink that has kept nothing yet.
    pub fn new(alloc: Global, sink: K) -> NotedSink<K> {
        NotedSink {
            sink,
            note: Vec::new(alloc),
            closed: ClosedRules::new(alloc),
        }
    }

    /// The first bytes that the sink took.
    pub fn note(&self) -> &[u8] {
        self.note.as_slice()
    }

    /// The rules that the lines of a record that the sink took are closed by.
    pub fn closed(&self) -> &ClosedRules {
        &self.closed
    }

    /// Keeps bytes that the sink took.
    fn keep(&mut self, bytes: &[u8])
        ensures { self.new.sink ≡ self.old.sink }
    {
        let room = ROOM.saturating_sub(self.note.len());
        let kept = bytes.get(..room).unwrap_or(bytes);
        let _ = self.note.extend_from_slice(kept);
        self.closed.take(bytes);
    }
}

impl<K: Sink> Sink for NotedSink<K> {
    ghost contents = { λ s. K.contents s.sink };

    ghost faults = { λ s. K.faults s.sink };

    fn write(&mut self, piece: &[u8]) -> Result<usize, SinkFault> {
        match self.sink.write(piece) {
            Ok(count) => {
                self.keep(piece.get(..count).unwrap_or(piece));
                Ok(count)
            }
            Err(fault) => Err(fault),
        }
    }
}
