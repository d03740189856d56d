ghost use Rattle.std.specs.Prelude.{◌≡◌, ◌+◌, ◌≤◌, ◌<◌, ◌^◌, ◌∷◌, [], ◌++◌, length, decimal, unsigned_abs};
ghost use Rattle.std.specs.Fmt.{signed_decimal};
ghost use Rattle.record_text.specs.Lines.{heading_of, word_of, slot_and_value};
ghost use Rattle.record_text.specs.Pieces.{piece_bytes, IsShortPiece};

use crate::Form;
use arrayvec::ArrayVec;
use box_eval::Side;
use itoa::Buffer;

/// The bytes that wait to be written.
pub(crate) const PAGE: usize = 4096;

/// The most bytes that a piece has.
pub(crate) const LONGEST_PIECE: usize = 44;

/// What is added to a page at once: a line with its line feed, or a part of a sum's line.
#[derive(Clone, Copy)]
pub(crate) enum Piece {
    Head { undecided: bool, form: Form },
    Slots(u64),
    Rules(u64),
    Room(u64),
    Cut { side: Side, slot: u64, value: i64 },
    Close { rule: u64 },
    Open,
    End,
    /// The word that a sum's line begins with.
    Word,
    /// A rule of a sum.
    Pick { times: u64, rule: u64 },
    /// The line feed of a sum's line.
    Feed,
}

/// Adds a piece.
pub(crate) fn spell(page: &mut ArrayVec<u8, PAGE>, piece: Piece)
    requires room { length page.old.items + 44 ≤ 4096 }
    requires short { IsShortPiece piece }
    ensures items { page.new.items ≡ page.old.items ++ piece_bytes piece }
    ensures few { length page.new.items ≤ length page.old.items + 44 }
{
    push_piece(page, piece);
}

fn push_piece(page: &mut ArrayVec<u8, PAGE>, piece: Piece)
    requires room { length page.old.items + 44 ≤ 4096 }
    requires short { IsShortPiece piece }
    ensures { page.new.items ≡ page.old.items ++ piece_bytes piece }
{
    match piece {
        Piece::Head { undecided, form } => push_head(page, undecided, form),
        Piece::Slots(number) => push_numbered(page, b"slots ", number),
        Piece::Rules(number) => push_numbered(page, b"rules ", number),
        Piece::Room(number) => push_numbered(page, b"room ", number),
        Piece::Cut { side, slot, value } => push_cut(page, side, slot, value),
        Piece::Close { rule } => push_numbered(page, b"close ", rule),
        Piece::Open => push(page, b"open\n"),
        Piece::End => push(page, b"end\n"),
        Piece::Word => push(page, b"sum"),
        Piece::Pick { times, rule } => push_pick(page, times, rule),
        Piece::Feed => push(page, b"\n"),
    }
}

fn push(page: &mut ArrayVec<u8, PAGE>, bytes: &[u8])
    requires { length page.old.items + length bytes.now ≤ 4096 }
    ensures { page.new.items ≡ page.old.items ++ bytes.now }
{
    // there is room
    match page.try_extend_from_slice(bytes) {
        Ok(()) => {}
        Err(_) => {}
    }
}

fn push_head(page: &mut ArrayVec<u8, PAGE>, undecided: bool, form: Form)
    requires { length page.old.items + 44 ≤ 4096 }
    ensures { page.new.items ≡ page.old.items ++ (heading_of undecided form ++ 10 ∷ []) }
{
    match (undecided, form) {
        (true, Form::One) => push(page, b"osc-undecided 1\n"),
        (true, Form::Two) => push(page, b"osc-undecided 2\n"),
        (false, Form::One) => push(page, b"osc-refutation 1\n"),
        (false, Form::Two) => push(page, b"osc-refutation 2\n"),
    }
}

/// Adds a word, a number and a line feed.
fn push_numbered(page: &mut ArrayVec<u8, PAGE>, word: &[u8], number: u64)
    requires room { length page.old.items + 44 ≤ 4096 }
    requires word { length word.now ≤ 6 }
    requires short { number < 10 ^ 18 }
    ensures { page.new.items ≡ page.old.items ++ ((word.now ++ decimal number) ++ 10 ∷ []) }
{
    push(page, word);
    push_number(page, number);
    push(page, b"\n");
}

fn push_cut(page: &mut ArrayVec<u8, PAGE>, side: Side, slot: u64, value: i64)
    requires room { length page.old.items + 44 ≤ 4096 }
    requires slot { slot < 10 ^ 18 }
    requires value { unsigned_abs value < 10 ^ 18 }
    ensures { page.new.items ≡ page.old.items ++ ((word_of side ++ slot_and_value slot value) ++ 10 ∷ []) }
{
    push_side(page, side);
    push_number(page, slot);
    push(page, b" ");
    push_value(page, value);
    push(page, b"\n");
}

fn push_pick(page: &mut ArrayVec<u8, PAGE>, times: u64, rule: u64)
    requires room { length page.old.items + 44 ≤ 4096 }
    requires times { times < 10 ^ 18 }
    requires rule { rule < 10 ^ 18 }
    ensures { page.new.items ≡ page.old.items ++ (32 ∷ (decimal times ++ 32 ∷ decimal rule)) }
{
    push(page, b" ");
    push_number(page, times);
    push(page, b" ");
    push_number(page, rule);
}

fn push_side(page: &mut ArrayVec<u8, PAGE>, side: Side)
    requires { length page.old.items + 5 ≤ 4096 }
    ensures items { page.new.items ≡ page.old.items ++ word_of side }
    ensures few { length page.new.items ≤ length page.old.items + 5 }
{
    match side {
        Side::Low => push(page, b"low "),
        Side::High => push(page, b"high "),
    }
}

fn push_number(page: &mut ArrayVec<u8, PAGE>, number: u64)
    requires room { length page.old.items + 18 ≤ 4096 }
    requires short { number < 10 ^ 18 }
    ensures items { page.new.items ≡ page.old.items ++ decimal number }
    ensures few { length page.new.items ≤ length page.old.items + 18 }
{
    let mut buffer = Buffer::new();
    push(page, buffer.format(number).as_bytes());
}

fn push_value(page: &mut ArrayVec<u8, PAGE>, value: i64)
    requires room { length page.old.items + 19 ≤ 4096 }
    requires short { unsigned_abs value < 10 ^ 18 }
    ensures items { page.new.items ≡ page.old.items ++ signed_decimal value }
    ensures few { length page.new.items ≤ length page.old.items + 19 }
{
    let mut buffer = Buffer::new();
    push(page, buffer.format(value).as_bytes());
}
