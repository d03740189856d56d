//! Counts of a part with its constraints.

ghost use Rattle.std.specs.Prelude.{◌≡◌, ◌+◌};
ghost use Rattle.work_parts.specs.OwnCounts.{counts_with};

use object_works::{Counts, add};
use work_counts::Tally;

/// The number of ticks from 0 to the last.
pub(crate) fn ticks_to(last: u32) -> u64
    ensures { result ≡ last + 1 }
{
    u64::from(last) + 1
}

/// The counts of a part with so many objects, slots and rules beside those of its constraints.
pub(crate) fn with_own(objects: u64, slots: u64, rules: u64, own: Tally) -> Counts
    ensures { result ≡ counts_with objects slots rules own }
{
    Counts {
        objects,
        slots,
        rules: add(rules, own.rules),
        tokens: own.tokens,
    }
}
