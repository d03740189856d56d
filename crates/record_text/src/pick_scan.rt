ghost use Rattle.std.specs.Prelude.{◌≡◌, ◌≤◌, length, drop};
ghost use Rattle.std.specs.Option.{option_map};
ghost use Rattle.std.specs.List.{prefix_len};
ghost use Rattle.record_text.specs.Picked.{seen_pick};
ghost use Rattle.record_text.specs.Scan.{is_no_space, number_after, after_number, pick_with, picks_at};
ghost use Rattle.record_text.specs.WholeLines.{if_read};

use crate::number::natural;
use crate::picks::{MOST_TIMES, Picks, TextPick};

/// The number of bytes before the first space.
pub(crate) fn length_before_space(text: &[u8]) -> usize
    ensures { result ≡ prefix_len is_no_space text.now }
{
    text.iter().take_while(|byte| **byte != b' ').count()
}

/// The same, which is no more than there are.
fn word_length(text: &[u8]) -> usize
    ensures value { result ≡ prefix_len is_no_space text.now }
    ensures few { result ≤ length text.now }
{
    length_before_space(text)
}

fn after_word(text: &[u8]) -> &[u8]
    ensures { result.now ≡ drop (prefix_len is_no_space text.now) text.now }
{
    &text[word_length(text)..]
}

/// The number after the space that a text begins with.
fn number_after(text: &[u8]) -> Option<u64>
    ensures { result ≡ number_after text.now }
{
    match text {
        [b' ', digits @ ..] => natural(&digits[..length_before_space(digits)]),
        _ => None,
    }
}

/// What comes after that number.
fn after_number(text: &[u8]) -> &[u8]
    ensures { result.now ≡ after_number text.now }
{
    match text {
        [_space, digits @ ..] => after_word(digits),
        [] => text,
    }
}

/// The pick of these numbers.
fn pick_with(times: Option<u64>, rule: Option<u64>) -> Option<TextPick>
    ensures { option_map seen_pick result ≡ pick_with times rule }
{
    match (times, rule) {
        (Some(times), Some(rule)) if times <= MOST_TIMES => {
            let times = times as u32;
            Some(TextPick { times, rule })
        }
        _ => None,
    }
}

/// Reads the picks of a text, a space and a number twice for each, and says whether they are that and no more than 64.
pub(crate) fn read_picks(picks: &mut Picks, text: &[u8]) -> bool
    ensures { if_read result picks.new ≡ picks_at 64 text.now }
{
    picks.clear();
    let mut rest = text;
    while !rest.is_empty() {
        if picks.is_full() {
            return false;
        }
        let rule_on = after_number(rest);
        match pick_with(number_after(rest), number_after(rule_on)) {
            Some(pick) => picks.push(pick),
            None => return false,
        }
        rest = after_number(rule_on);
    }
    true
}
