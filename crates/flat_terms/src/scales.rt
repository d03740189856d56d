//! Common scales.

ghost use Rattle.std.specs.Prelude.{◌≡◌, ◌<◌, ◌≤◌, ◌^◌};
ghost use Rattle.field_flatten.specs.osc_base.LowestTerms.{lcm as multiple};

use box_eval::osc_base::gcd;

/// The least common multiple of two scales.
#[tactic(auto, using(crate::proofs::Shares::divisor_above, crate::proofs::Shares::multiple_is))]
pub fn common_scale(a: u128, b: u128) -> u128
    requires first { 0 < a }
    requires second { 0 < b }
    requires small { multiple a b ≤ 2 ^ 120 }
    ensures { result ≡ multiple a b }
{
    a * (b / gcd(a, b))
}
