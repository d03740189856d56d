//! How often two numbers are taken, at least, so that they cancel each other.
ghost use Rattle.std.specs.Prelude.{◌≡◌, ◌<◌, ◌≤◌, ◌*◌, ◌^◌, ℕ, true, pos, unsigned_abs, ◌*ℤ◌, MatchOption, SomeIff};
ghost use Rattle.linear_sums.specs.Multiple.{CancelOut, IsLeast, NoLeast};

use osc_base::least_common_multiple;

/// The greatest product, 2^120.
const MOST: u128 = 0x100_0000_0000_0000_0000_0000_0000_0000;

/// How often a rule may be taken.
const MOST_TIMES: u128 = 1_000_000;

/// How often each of two numbers is taken.
#[derive(Debug, Clone, Copy, PartialEq, Eq)]
pub(crate) struct Multiples {
    pub first: u32,
    pub second: u32,
}

/// The least multiples of two numbers that are equal, if they are small.
pub(crate) fn least_multiples(a: u128, b: u128) -> Option<Multiples>
    requires first { 0 < a }
    requires second { 0 < b }
    ensures { MatchOption result (NoLeast a b) (IsLeast a b) }
{
    let common = least_common_multiple(a, b)?;
    small_multiples(common / a, common / b)
}

/// Two counts, if rules may be taken so often.
fn small_multiples(first: u128, second: u128) -> Option<Multiples>
    ensures { MatchOption result (first ≤ 1000000 → second ≤ 1000000 → ⊥)
        (λ m. ((m.first ≡ first) × (m.second ≡ second))
        × ((first ≤ 1000000) × (second ≤ 1000000))) }
{
    if first <= MOST_TIMES && second <= MOST_TIMES {
        Some(Multiples {
            first: first as u32,
            second: second as u32,
        })
    } else {
        None
    }
}

/// Whether so many times the one number and so many times the other make 0, and neither product passes 2^120.
pub(crate) fn cancel(times: Multiples, a: i128, b: i128) -> bool
    ensures sound { result ≡ true → CancelOut times a b }
    ensures complete { times.first * unsigned_abs a ≤ 2 ^ 120 → CancelOut times a b
        → result ≡ true }
{
    match product(times.first, a) {
        Some(first) => match product(times.second, b) {
            Some(second) => first + second == 0,
            None => false,
        },
        None => false,
    }
}

/// A product, if it is at most 2^120 in magnitude.
fn product(times: u32, number: i128) -> Option<i128>
    ensures { SomeIff result (unsigned_abs (pos times *ℤ number) ≤ 2 ^ 120) (pos times *ℤ number) }
{
    let made = i128::from(times).checked_mul(number)?;
    if made.unsigned_abs() <= MOST {
        Some(made)
    } else {
        None
    }
}
