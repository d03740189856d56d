ghost use Rattle.std.specs.Prelude.{◌≡◌, ◌≤◌, ◌∷◌, [], ◌++◌, is_some, OnOk, OnErr};
ghost use Rattle.std.specs.Io.KnownBytes.{append_known};
ghost use Rattle.outside_io.specs.Bytes.{AppendsPart};
ghost use Rattle.outside_io.specs.Counts.{Rises};
ghost use Rattle.record_text.specs.Text.{record_text, IsWritable, HasOwnText};
ghost use Rattle.record_text.specs.Written.{HaveShortValues, HaveSums, header_lines};
ghost use Rattle.record_text.specs.Lines.{text_of, AllShort};
ghost use Rattle.record_text.specs.Text.{form_for, sum_among, taken};

use crate::Form;
use crate::page::{PAGE, Piece, spell};
use crate::put::{put, put_line};
use arrayvec::ArrayVec;
use outside_io::{Sink, SinkStop, write_all};
use record_trees::{Line, Record};

/// Writes a record. It takes no memory.
///
/// Each value of a cut has at most 18 digits, and the sums take all rules of the record, which may stand in their lines.
/// No other record that may be written has this text. `Sink` comes where the sink failed; a prefix of the text is written
/// then.
pub fn write_record<K: Sink>(sink: &mut K, claim: &Record) -> Result<(), SinkStop>
    requires values { HaveShortValues claim.now.lines }
    requires sums { HaveSums claim.now.lines claim.now.picks }
    ensures whole { OnOk result (K.contents sink.new ≡ append_known (K.contents sink.old) (record_text claim.now)) }
    ensures writable { OnOk result (IsWritable claim.now) }
    ensures own { OnOk result (HasOwnText claim.now) }
    ensures part { OnErr result (AppendsPart (K.contents sink.old) (K.contents sink.new) (record_text claim.now)) }
    ensures cause { OnErr result (Rises (K.faults sink.old) (K.faults sink.new)) }

    ensures never_falls { K.faults sink.old ≤ K.faults sink.new }
    ensures steady { OnOk result (K.faults sink.new ≡ K.faults sink.old) }
    ensures telling_kept { is_some (K.contents sink.new) ≡ is_some (K.contents sink.old) }
{
    let mut page: ArrayVec<u8, PAGE> = ArrayVec::new();
    spell_header(&mut page, claim);
    let mut lines = claim.lines.as_slice();
    let mut picks = claim.picks.as_slice();
    while let [line, later @ ..] = lines {
        let count = taken(line);
        put_line(sink, &mut page, line, &picks[..count])?;
        picks = &picks[count..];
        lines = later;
    }
    put(sink, &mut page, Piece::End)?;
    write_all(sink, page.as_slice())
}

/// Adds the first four lines to an empty page.
fn spell_header(page: &mut ArrayVec<u8, PAGE>, claim: &Record)
    requires { page.old.items ≡ [] }
    ensures items { page.new.items ≡ text_of (header_lines claim.now) }
    ensures short { AllShort (header_lines claim.now) }
{
    let undecided = claim.undecided;
    let form = form_of(claim.lines.as_slice());
    spell(page, Piece::Head { undecided, form });
    spell(page, Piece::Slots(u64::from(claim.slots)));
    spell(page, Piece::Rules(u64::from(claim.rules)));
    spell(page, Piece::Room(u64::from(claim.room)));
}

/// The form of a record with these lines.
fn form_of(lines: &[Line]) -> Form
    ensures { result ≡ form_for (sum_among lines.now) }
{
    if some_sum(lines) {
        Form::Two
    } else {
        Form::One
    }
}

fn some_sum(lines: &[Line]) -> bool
    ensures { result ≡ sum_among lines.now }
{
    lines.iter().any(|line| matches!(line, Line::Sum { .. }))
}

/// How many rules a line takes.
fn taken(line: &Line) -> usize
    ensures { result ≡ taken line.now }
{
    match line {
        Line::Sum { count } => *count as usize,
        _ => 0,
    }
}
