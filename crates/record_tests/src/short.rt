//! Whether a record may be written.
ghost use Rattle.std.specs.Prelude.{◌≡◌, true};
ghost use Rattle.record_trees.specs.Record.{are_in_order, may_stand};
ghost use Rattle.record_text.specs.Written.{HasShortValue, HaveShortValues, HaveSums};

use record_trees::Line;
use record_trees::linear_sums::Pick;

/// The least number with 19 digits.
const TOO_LONG: u64 = 1_000_000_000_000_000_000;

/// Whether the values of all cuts have at most 18 digits.
pub(crate) fn are_short(lines: &[Line]) -> bool
    ensures { result ≡ true → HaveShortValues lines.now }
{
    match lines {
        [] => true,
        [first, rest @ ..] => is_short(first) && are_short(rest),
    }
}

fn is_short(line: &Line) -> bool
    ensures { result ≡ true → HasShortValue line.now }
{
    match line {
        Line::Low { value, .. } => value.unsigned_abs() < TOO_LONG,
        Line::High { value, .. } => value.unsigned_abs() < TOO_LONG,
        Line::Close { .. } | Line::Sum { .. } => true,
        Line::Unknown => true,
    }
}

/// Whether the sums of the lines take these rules in turn, and leave none.
pub(crate) fn have_sums(lines: &[Line], picks: &[Pick]) -> bool
    ensures { result ≡ true → HaveSums lines.now picks.now }
{
    match lines {
        [] => picks.is_empty(),
        [Line::Low { .. }, rest @ ..] => have_sums(rest, picks),
        [Line::High { .. }, rest @ ..] => have_sums(rest, picks),
        [Line::Close { .. }, rest @ ..] => have_sums(rest, picks),
        [Line::Unknown, rest @ ..] => have_sums(rest, picks),
        [Line::Sum { count }, rest @ ..] => match picks.split_at_checked(*count as usize) {
            Some((own, others)) => may_stand(own) && have_sums(rest, others),
            None => false,
        },
    }
}

/// Whether these rules may stand in a line: 1 to 64 of them, in ascending order, each taken 1 to 1,000,000 times.
fn may_stand(picks: &[Pick]) -> bool
    ensures { result ≡ true → may_stand picks.now ≡ true }
{
    !picks.is_empty() && picks.len() <= 64 && are_in_order(0, picks)
}

fn are_in_order(from: u64, picks: &[Pick]) -> bool
    ensures { result ≡ true → are_in_order from picks.now ≡ true }
{
    match picks {
        [] => true,
        [first, rest @ ..] => {
            from <= u64::from(first.rule)
                && (1..=1_000_000).contains(&first.times)
                && are_in_order(u64::from(first.rule) + 1, rest)
        }
    }
}
