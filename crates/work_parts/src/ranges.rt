//! Whether the numbers of an enum leave a number out.

ghost use Rattle.std.specs.Prelude.{◌≡◌, ◌-ℤ◌, fold, not, pos};
ghost use Rattle.std.specs.Int.{int_min, int_max};
ghost use Rattle.object_works.specs.scene_expansion.composition.Ranges.{has_gap as leaves_out};
ghost use Rattle.osc_base.specs.Comparisons.{same_number};

/// Whether distinct numbers leave out a number between their least and their greatest.
pub(crate) fn has_gap(numbers: &[i64]) -> bool
    ensures { result ≡ leaves_out numbers.now }
{
    match numbers.split_first() {
        Some((first, later)) => {
            spans_more(least(*first, later), greatest(*first, later), later.len())
        }
        None => false,
    }
}

/// Whether one number isn't the other and so many more.
fn spans_more(least: i64, greatest: i64, more: usize) -> bool
    ensures { result ≡ not (same_number (greatest -ℤ least) (pos more)) }
{
    i128::from(greatest) - i128::from(least) != more as i128
}

/// The least of a number and those after it.
fn least(first: i64, later: &[i64]) -> i64
    ensures { result ≡ fold int_min first later.now }
{
    let mut least = first;
    for number in later {
        least = least.min(*number);
    }
    least
}

/// The greatest of a number and those after it.
fn greatest(first: i64, later: &[i64]) -> i64
    ensures { result ≡ fold int_max first later.now }
{
    let mut greatest = first;
    for number in later {
        greatest = greatest.max(*number);
    }
    greatest
}
