ghost use Rattle.std.specs.Prelude.{◌≡◌, ℕ, ◌<◌, ◌≤◌, List, Option, is_some, IfOk, OnOk, OnErr, length, take};
ghost use Rattle.std.specs.Io.KnownBytes.{append_known};
ghost use Rattle.outside_io.specs.Counts.{Rises};
ghost use Rattle.outside_io.specs.Bytes.{AppendsPart};

/// A write failed. The sink has counted the fault.
#[derive(Debug, Clone, Copy, PartialEq, Eq)]
pub struct SinkFault;

/// What takes the bytes that are written.
///
/// Contracts see what was written, if the sink tells that, and its count of faults. The count rises by one at each
/// fault and at nothing else. It stops at the last value of a `u64`.
pub trait Sink {
    ghost contents: { Self → Option (List ℕ) };

    ghost faults: { Self → ℕ };

    /// Takes a prefix of `piece`, at least one byte of a piece that isn't empty, and returns its length. A write that
    /// takes none of them is a fault. Before a fault the sink may have taken some prefix of the piece.
    fn write(&mut self, piece: &[u8]) -> Result<usize, SinkFault>
        ensures telling_kept { is_some (contents self.new) ≡ is_some (contents self.old) }

        ensures within { IfOk result (λ count. count ≤ length piece.now) }
        ensures advances { IfOk result (λ count. 0 < length piece.now → 0 < count) }
        ensures appends { IfOk result (λ count. contents self.new ≡ append_known (contents self.old) (take count piece.now)) }
        ensures part { OnErr result (AppendsPart (contents self.old) (contents self.new) piece.now) }

        ensures never_falls { faults self.old ≤ faults self.new }
        ensures steady { OnOk result (faults self.new ≡ faults self.old) }
        ensures cause { OnErr result (Rises (faults self.old) (faults self.new)) };
}
