ghost use Rattle.std.specs.Prelude.{◌≡◌, ◌+◌, ◌≤◌, ◌∷◌, [], ◌++◌, length, codes, is_some, IfSome, OnOk, OnErr};
ghost use Rattle.outside_io.specs.Bytes.{AppendsPart};
ghost use Rattle.outside_io.specs.Counts.{Rises};
ghost use Rattle.record_text.specs.Lines.{spelled, spelled_picks, IsFewDigits, IsShort, HaveFewDigits};
ghost use Rattle.record_text.specs.Pieces.{piece_bytes, IsShortPiece, piece_of};
ghost use Rattle.record_text.specs.Text.{line_with};
ghost use Rattle.record_text.specs.Written.{HasShortValue, HasSum, Puts};
ghost use Rattle.record_text.specs.declared.page.Piece.TheVariants.{Cut, Pick as PickPiece};

use crate::page::{LONGEST_PIECE, PAGE, Piece, spell};
use arrayvec::ArrayVec;
use box_eval::Side;
use outside_io::{Sink, SinkStop, write_all};
use record_trees::Line;
use record_trees::linear_sums::Pick;

/// Adds a line to the page, which is written first where it has no room. These are the rules of its sum.
pub(crate) fn put_line<K: Sink>(
    sink: &mut K,
    page: &mut ArrayVec<u8, PAGE>,
    line: &Line,
    picks: &[Pick],
) -> Result<(), SinkStop>
    requires value { HasShortValue line.now }
    requires sum { HasSum line.now picks.now }
    ensures puts { OnOk result (Puts (spelled (line_with line.now picks.now) ++ 10 ∷ []) (K.contents sink.old) page.old.items (K.contents sink.new) page.new.items) }
    ensures short { OnOk result (IsShort (line_with line.now picks.now)) }
    ensures part { OnErr result (AppendsPart (K.contents sink.old) (K.contents sink.new) (page.old.items ++ (spelled (line_with line.now picks.now) ++ 10 ∷ []))) }
    ensures cause { OnErr result (Rises (K.faults sink.old) (K.faults sink.new)) }

    ensures never_falls { K.faults sink.old ≤ K.faults sink.new }
    ensures steady { OnOk result (K.faults sink.new ≡ K.faults sink.old) }
    ensures telling_kept { is_some (K.contents sink.new) ≡ is_some (K.contents sink.old) }
{
    match piece_of(line) {
        Some(piece) => put(sink, page, piece),
        None => put_sum(sink, page, picks),
    }
}

/// The piece of a cut or leaf that is no sum.
fn piece_of(line: &Line) -> Option<Piece>
    ensures piece { result ≡ piece_of line.now }
    ensures short { HasShortValue line.now → IfSome result (λ piece. IsShortPiece piece) }
{
    match line {
        Line::Low { slot, value } => Some(cut(Side::Low, *slot, *value)),
        Line::High { slot, value } => Some(cut(Side::High, *slot, *value)),
        Line::Close { rule } => Some(Piece::Close {
            rule: u64::from(*rule),
        }),
        Line::Sum { .. } => None,
        Line::Unknown => Some(Piece::Open),
    }
}

fn cut(side: Side, slot: u32, value: i64) -> Piece
    ensures piece { result ≡ Cut side slot value }
    ensures short { IsFewDigits slot }
{
    Piece::Cut {
        side,
        slot: u64::from(slot),
        value,
    }
}

/// Adds the line of a sum.
fn put_sum<K: Sink>(
    sink: &mut K,
    page: &mut ArrayVec<u8, PAGE>,
    picks: &[Pick],
) -> Result<(), SinkStop>
    ensures puts { OnOk result (Puts ((codes "sum" ++ spelled_picks picks.now) ++ 10 ∷ []) (K.contents sink.old) page.old.items (K.contents sink.new) page.new.items) }
    ensures short { OnOk result (HaveFewDigits picks.now) }
    ensures part { OnErr result (AppendsPart (K.contents sink.old) (K.contents sink.new) (page.old.items ++ ((codes "sum" ++ spelled_picks picks.now) ++ 10 ∷ []))) }
    ensures cause { OnErr result (Rises (K.faults sink.old) (K.faults sink.new)) }

    ensures never_falls { K.faults sink.old ≤ K.faults sink.new }
    ensures steady { OnOk result (K.faults sink.new ≡ K.faults sink.old) }
    ensures telling_kept { is_some (K.contents sink.new) ≡ is_some (K.contents sink.old) }
{
    put(sink, page, Piece::Word)?;
    put_picks(sink, page, picks)?;
    put(sink, page, Piece::Feed)
}

/// Adds the rules of a sum.
fn put_picks<K: Sink>(
    sink: &mut K,
    page: &mut ArrayVec<u8, PAGE>,
    picks: &[Pick],
) -> Result<(), SinkStop>
    ensures puts { OnOk result (Puts (spelled_picks picks.now) (K.contents sink.old) page.old.items (K.contents sink.new) page.new.items) }
    ensures short { OnOk result (HaveFewDigits picks.now) }
    ensures part { OnErr result (AppendsPart (K.contents sink.old) (K.contents sink.new) (page.old.items ++ spelled_picks picks.now)) }
    ensures cause { OnErr result (Rises (K.faults sink.old) (K.faults sink.new)) }

    ensures never_falls { K.faults sink.old ≤ K.faults sink.new }
    ensures steady { OnOk result (K.faults sink.new ≡ K.faults sink.old) }
    ensures telling_kept { is_some (K.contents sink.new) ≡ is_some (K.contents sink.old) }
{
    let mut rest = picks;
    while let [pick, later @ ..] = rest {
        put(sink, page, piece_of_pick(pick))?;
        rest = later;
    }
    Ok(())
}

fn piece_of_pick(pick: &Pick) -> Piece
    ensures piece { result ≡ PickPiece pick.now.times pick.now.rule }
    ensures few_times { IsFewDigits pick.now.times }
    ensures few_rule { IsFewDigits pick.now.rule }
{
    Piece::Pick {
        times: u64::from(pick.times),
        rule: u64::from(pick.rule),
    }
}

/// Adds a piece to the page, which is written first where it has no room for it.
pub(crate) fn put<K: Sink>(
    sink: &mut K,
    page: &mut ArrayVec<u8, PAGE>,
    piece: Piece,
) -> Result<(), SinkStop>
    requires { IsShortPiece piece }
    ensures puts { OnOk result (Puts (piece_bytes piece) (K.contents sink.old) page.old.items (K.contents sink.new) page.new.items) }
    ensures part { OnErr result (AppendsPart (K.contents sink.old) (K.contents sink.new) page.old.items) }
    ensures cause { OnErr result (Rises (K.faults sink.old) (K.faults sink.new)) }

    ensures never_falls { K.faults sink.old ≤ K.faults sink.new }
    ensures steady { OnOk result (K.faults sink.new ≡ K.faults sink.old) }
    ensures telling_kept { is_some (K.contents sink.new) ≡ is_some (K.contents sink.old) }
{
    if page.len() > PAGE - LONGEST_PIECE {
        write_all(sink, page.as_slice())?;
        page.clear();
    }
    spell(page, piece);
    Ok(())
}
