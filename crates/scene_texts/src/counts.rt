//! Counts, which stop at the greatest number of 64 bits.

ghost use Rattle.std.specs.Prelude.{◌≡◌, ◌+◌, ◌*◌};
ghost use Rattle.scene_texts.specs.Capped.{capped};

/// The sum of two counts.
#[tactic(auto, unfolding(crate::specs::Capped::capped))]
pub fn add(count: u64, more: u64) -> u64
    ensures { result ≡ capped (count + more) }
{
    count.saturating_add(more)
}

/// A count that is taken a number of times.
#[tactic(auto, unfolding(crate::specs::Capped::capped))]
pub fn times(number: u64, count: u64) -> u64
    ensures { result ≡ capped (number * count) }
{
    number.saturating_mul(count)
}
