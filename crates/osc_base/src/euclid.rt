//! Greatest common divisors and least common multiples.

ghost use Rattle.std.specs.Prelude.{◌≡◌, ℕ, ◌^◌, ◌<◌, ◌≤◌};
ghost use Rattle.std.specs.Option.{SomeIff};
ghost use Rattle.osc_base.specs.LowestTerms.{gcd as divisor};
ghost use Rattle.osc_base.specs.Number.{IsLeastCommonMultiple};

/// The greatest common multiple, 2^120.
const MOST: u128 = 0x100_0000_0000_0000_0000_0000_0000_0000;

/// The greatest common divisor. That of a number and 0 is the number.
#[tactic(auto, using(crate::proofs::Divisors::gcd_step, crate::proofs::Divisors::gcd_end))]
pub fn gcd(a: u128, b: u128) -> u128
    ensures { result ≡ divisor a b }
{
    let (mut x, mut y) = (a, b);
    while y != 0 {
        let rest = x % y;
        x = y;
        y = rest;
    }
    x
}

/// The least common multiple, if it is at most 2^120.
pub fn least_common_multiple(a: u128, b: u128) -> Option<u128>
    requires first { 0 < a }
    requires second { 0 < b }
    ensures { (multiple : ℕ) × IsLeastCommonMultiple a b multiple
        × SomeIff result (multiple ≤ 2 ^ 120) multiple }
{
    let multiple = (a / gcd(a, b)).checked_mul(b)?;
    if multiple <= MOST {
        Some(multiple)
    } else {
        None
    }
}
