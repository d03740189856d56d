ghost use Rattle.std.specs.Prelude.{◌≡◌, ◌≤◌, is_some, OnOk, OnErr};
ghost use Rattle.std.specs.Io.KnownBytes.{append_known};
ghost use Rattle.record_text.specs.outside_io.Bytes.{AppendsPart};
ghost use Rattle.record_text.specs.outside_io.Counts.{Rises};
ghost use Rattle.record_text.specs.Written.{HaveShortValues, HaveSums};
ghost use Rattle.command_replies.specs.Replies.{refutation, undecided};

use crate::body::{Body, ShortRecord};
use crate::status::Status;
use osc_base::Text;
use record_text::outside_io::{Sink, SinkStop, write_all};
use record_text::{Record, write_record};
use std::marker::Model;

/// A status and the text that comes with it. The text of a record is made as it is written.
#[derive(Drop)]
pub struct Reply {
    status: Status,
    body: Body,
}

impl Model for Reply {
    ghost use Rattle.command_replies.specs.Reply.{Answer, answer_of};

    ghost Value = { Answer };

    ghost view = { λ r. answer_of r.status r.body };
}

impl Reply {
    /// A status and a text.
    pub fn of(status: Status, text: Text) -> Reply
        ensures status { result.status ≡ status }
        ensures text { result.text ≡ text }
    {
        let body = Body::Text(text);
        Reply { status, body }
    }

    /// The status.
    pub fn status(&self) -> Status
        ensures { result ≡ self.now.status }
    {
        self.status
    }

    #[tactic(auto, using(crate::proofs::ShortRecords::short_lines, crate::proofs::ShortRecords::sum_lines))]
    /// Writes the text. If the sink fails, a prefix of the text was written.
    pub fn write<K: Sink>(&self, sink: &mut K) -> Result<(), SinkStop>
        ensures whole { OnOk result (K.contents sink.new ≡ append_known (K.contents sink.old) self.now.text) }
        ensures part { OnErr result (AppendsPart (K.contents sink.old) (K.contents sink.new) self.now.text) }
        ensures cause { OnErr result (Rises (K.faults sink.old) (K.faults sink.new)) }

        ensures never_falls { K.faults sink.old ≤ K.faults sink.new }
        ensures steady { OnOk result (K.faults sink.new ≡ K.faults sink.old) }
        ensures telling_kept { is_some (K.contents sink.new) ≡ is_some (K.contents sink.old) }
    {
        match &self.body {
            Body::Text(text) => write_all(sink, text.as_str().as_bytes()),
            Body::Record(record) => write_record(sink, &record.claim),
        }
    }
}

#[tactic(auto, using(crate::proofs::ShortRecords::tested_lines, crate::proofs::ShortRecords::tested_sums))]
/// The scenario has no instance: this record shows it.
pub fn refutation(claim: Record) -> Reply
    requires values { HaveShortValues claim.lines }
    requires sums { HaveSums claim.lines claim.picks }
    ensures { result ≡ refutation claim }
{
    let body = Body::Record(ShortRecord { claim });
    Reply {
        status: Status::Refuted,
        body,
    }
}

#[tactic(auto, using(crate::proofs::ShortRecords::tested_lines, crate::proofs::ShortRecords::tested_sums))]
/// All cuts were made, and this record leaves something open.
pub fn undecided(claim: Record) -> Reply
    requires values { HaveShortValues claim.lines }
    requires sums { HaveSums claim.lines claim.picks }
    ensures { result ≡ undecided claim }
{
    let body = Body::Record(ShortRecord { claim });
    Reply {
        status: Status::Undecided,
        body,
    }
}
