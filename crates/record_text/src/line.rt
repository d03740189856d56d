ghost use Rattle.std.specs.Prelude.{◌≡◌, List, Some};
ghost use Rattle.std.specs.Option.{option_map};
ghost use Rattle.linear_sums.specs.declared.pick.Pick.{Pick};
ghost use Rattle.record_text.specs.Scan.{word_at, cut_of, cut_at, heading_at, sum_of, sum_at, line_at};
ghost use Rattle.record_text.specs.TextLines.{Head, Slots, Rules, Room, Close};
ghost use Rattle.record_text.specs.WholeLines.{whole_if};

use crate::begins::begins;
use crate::number::{integer, natural};
use crate::pick_scan::{length_before_space, read_picks};
use crate::picks::{Picks, may_stand};
use box_eval::Side;

/// The form of a record's text.
#[derive(Debug, Clone, Copy, PartialEq, Eq)]
pub enum Form {
    /// A record without a sum.
    One,
    /// A record with a sum at least.
    Two,
}

/// A line of a record's text as it is read. The rules of a sum stay in the [`Reader`](crate::Reader).
#[derive(Clone, Copy)]
pub enum ReadLine {
    /// The heading of a record.
    Head { undecided: bool, form: Form },
    /// The number of slots of the flat form.
    Slots(u64),
    /// The number of its rules.
    Rules(u64),
    /// A number that the cuts above a line never exceed.
    Room(u64),
    /// A cut, which the lines of its first part and then those of its second follow.
    Cut { side: Side, slot: u64, value: i64 },
    /// The present box has no point at which the rule is true.
    Close { rule: u64 },
    /// The present box has no point at which all rules of a sum are true.
    Sum,
    /// Nothing is said of the present box.
    Open,
    /// The end of the record.
    End,
}

/// The line that has this spelling, its line feed left out. If it is a sum, its rules are in `picks` then.
pub(crate) fn line_of(text: &[u8], picks: &mut Picks) -> Option<ReadLine>
    ensures { whole_if picks.new result ≡ line_at text.now }
{
    if begins(text, b"low ") {
        cut(Side::Low, &text[4..])
    } else if begins(text, b"high ") {
        cut(Side::High, &text[5..])
    } else if begins(text, b"close ") {
        close(natural(&text[6..]))
    } else if begins(text, b"sum") {
        sum(&text[3..], picks)
    } else if text.starts_with(b"o") || text.starts_with(b"e") {
        word(text)
    } else {
        heading(text)
    }
}

/// The line of this spelling, of those without a number.
fn word(text: &[u8]) -> Option<ReadLine>
    ensures { (picks : List Pick) → whole_if picks result ≡ word_at text.now }
{
    if text == b"open".as_slice() {
        Some(ReadLine::Open)
    } else if text == b"end".as_slice() {
        Some(ReadLine::End)
    } else if text == b"osc-refutation 1".as_slice() {
        head(false, Form::One)
    } else if text == b"osc-refutation 2".as_slice() {
        head(false, Form::Two)
    } else if text == b"osc-undecided 1".as_slice() {
        head(true, Form::One)
    } else if text == b"osc-undecided 2".as_slice() {
        head(true, Form::Two)
    } else {
        None
    }
}

fn head(undecided: bool, form: Form) -> Option<ReadLine>
    ensures { (picks : List Pick) → whole_if picks result ≡ Some (Head undecided form) }
{
    Some(ReadLine::Head { undecided, form })
}

/// The line of this spelling, of those with a number before the first cut.
fn heading(text: &[u8]) -> Option<ReadLine>
    ensures { (picks : List Pick) → whole_if picks result ≡ heading_at text.now }
{
    if text.starts_with(b"slots ") {
        slots(natural(&text[6..]))
    } else if text.starts_with(b"rules ") {
        rules(natural(&text[6..]))
    } else if text.starts_with(b"room ") {
        room(natural(&text[5..]))
    } else {
        None
    }
}

fn slots(number: Option<u64>) -> Option<ReadLine>
    ensures { (picks : List Pick) → whole_if picks result ≡ option_map Slots number }
{
    match number {
        Some(number) => Some(ReadLine::Slots(number)),
        None => None,
    }
}

fn rules(number: Option<u64>) -> Option<ReadLine>
    ensures { (picks : List Pick) → whole_if picks result ≡ option_map Rules number }
{
    match number {
        Some(number) => Some(ReadLine::Rules(number)),
        None => None,
    }
}

fn room(number: Option<u64>) -> Option<ReadLine>
    ensures { (picks : List Pick) → whole_if picks result ≡ option_map Room number }
{
    match number {
        Some(number) => Some(ReadLine::Room(number)),
        None => None,
    }
}

fn close(number: Option<u64>) -> Option<ReadLine>
    ensures { (picks : List Pick) → whole_if picks result ≡ option_map Close number }
{
    match number {
        Some(rule) => Some(ReadLine::Close { rule }),
        None => None,
    }
}

/// The cut with this slot and value, between which a space stands.
fn cut(side: Side, text: &[u8]) -> Option<ReadLine>
    ensures { (picks : List Pick) → whole_if picks result ≡ cut_at side text.now }
{
    let slot = length_before_space(text);
    if slot < text.len() {
        cut_of(side, natural(&text[..slot]), integer(&text[slot + 1..]))
    } else {
        None
    }
}

fn cut_of(side: Side, slot: Option<u64>, value: Option<i64>) -> Option<ReadLine>
    ensures { (picks : List Pick) → whole_if picks result ≡ cut_of side slot value }
{
    match (slot, value) {
        (Some(slot), Some(value)) => Some(ReadLine::Cut { side, slot, value }),
        _ => None,
    }
}

/// The sum of these rules, with a space before each of their numbers. They are in `picks` then.
fn sum(text: &[u8], picks: &mut Picks) -> Option<ReadLine>
    ensures { whole_if picks.new result ≡ sum_at text.now }
{
    if read_picks(picks, text) {
        sum_of(picks)
    } else {
        None
    }
}

fn sum_of(picks: &Picks) -> Option<ReadLine>
    ensures { whole_if picks.now result ≡ sum_of picks.now }
{
    if may_stand(picks.as_slice()) {
        Some(ReadLine::Sum)
    } else {
        None
    }
}
