//! Values of divisors.

ghost use Rattle.std.specs.Prelude.{◌≤◌, ◌^◌, unsigned_abs};

use osc_base::Fraction;

/// The value of a constant divisor, in lowest terms. Neither part passes 2^120.
#[derive(Clone, Copy)]
pub(crate) struct Divisor {
    pub number: Fraction,
    ghost top: { unsigned_abs number.num ≤ 2 ^ 120 },
    ghost bottom: { unsigned_abs number.den ≤ 2 ^ 120 },
}
