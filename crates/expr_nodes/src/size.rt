//! Scales and reaches: a value times the scale is whole, and its magnitude is at most the reach.

ghost use Rattle.std.specs.Prelude.{◌≡◌, ◌<◌, ◌≤◌, ◌+◌, ◌*◌, ◌/◌, ◌^◌, cond, pos, None, Some, max, unsigned_abs, option_map, nat_lt};
ghost use Rattle.type_model.specs.osc_base.Comparisons.{greatest_part};
ghost use Rattle.type_model.specs.osc_base.Fraction.{value};
ghost use Rattle.type_model.specs.osc_base.LowestTerms.{lcm as multiple};
ghost use Rattle.expr_nodes.specs.Sizes.{unit_size, constant_size, field_size, duration_size, joined as joining, multiplied as product, divided as quotient, widened as wider, is_wide};

use type_model::{Fraction, gcd};

/// The greatest scale and reach, 2^120.
const MOST: u128 = 0x100_0000_0000_0000_0000_0000_0000_0000;

/// The greatest magnitude of what a field holds.
const FIELD_REACH: u128 = 1_000_000_000;

/// The greatest duration, in thousandths of a second: 600 ticks of a second each.
const DURATION_REACH: u128 = 600_000;

/// Durations count thousandths of a second.
const DURATION_SCALE: u128 = 1000;

/// A scale, which is at least 1, and a reach. Neither passes 2^120.
#[derive(Debug, Clone, Copy)]
pub struct Size {
    pub scale: u128,
    pub reach: u128,
    ghost positive: { 0 < scale },
    ghost small_scale: { scale ≤ 2 ^ 120 },
    ghost small_reach: { reach ≤ 2 ^ 120 },
}

impl Size {
    ghost use Rattle.expr_nodes.specs.Seen.{seen_size, fitting};

    /// The size of a truth value that is no field, of an object, a range and a list.
    pub fn unit() -> Size
        ensures { seen_size result ≡ unit_size }
    {
        Size { scale: 1, reach: 1 }
    }

    /// The size of what a field holds, counted over `per`.
    pub fn field(per: u32) -> Size
        requires { 0 < per }
        ensures { seen_size result ≡ field_size per }
    {
        Size {
            scale: u128::from(per),
            reach: FIELD_REACH,
        }
    }

    /// The size of a duration.
    pub fn duration() -> Size
        ensures { seen_size result ≡ duration_size }
    {
        Size {
            scale: DURATION_SCALE,
            reach: DURATION_REACH,
        }
    }

    /// The size of a constant in lowest terms.
    pub fn constant(number: &Fraction) -> Size
        requires top { unsigned_abs number.now.num ≤ 2 ^ 120 }
        requires bottom { unsigned_abs number.now.den ≤ 2 ^ 120 }
        ensures { seen_size result ≡ constant_size (value number.now) }
    {
        Size {
            scale: number.den.unsigned_abs(),
            reach: number.num.unsigned_abs().max(1),
        }
    }

    /// The size of a sum or relation. `None` when it passes 2^120.
    pub fn joined(&self, other: &Size) -> Option<Size>
        ensures { option_map seen_size result ≡ fitting (joining (seen_size self.now) (seen_size other.now)) }
    {
        let common = least_common_multiple(self.scale, other.scale)?;
        let left = self.widened(common)?;
        let right = other.widened(common)?;
        Size::within(common, left.checked_add(right)?)
    }

    /// The size of a product. `None` when it passes 2^120.
    pub fn multiplied(&self, other: &Size) -> Option<Size>
        ensures { option_map seen_size result ≡ fitting (product (seen_size self.now) (seen_size other.now)) }
    {
        let scale = self.scale.checked_mul(other.scale)?;
        let reach = self.reach.checked_mul(other.reach)?;
        Size::within(scale, reach)
    }

    /// The size of a quotient by a number other than 0. `None` when it passes 2^120.
    pub fn divided(&self, by: &Fraction) -> Option<Size>
        requires { 0 < unsigned_abs by.now.num }
        ensures { option_map seen_size result ≡ fitting (quotient (seen_size self.now) (value by.now)) }
    {
        let scale = self.scale.checked_mul(by.num.unsigned_abs())?;
        let reach = self.reach.checked_mul(by.den.unsigned_abs())?;
        Size::within(scale, reach)
    }

    /// This size, if it is at most 2^120.
    fn within(scale: u128, reach: u128) -> Option<Size>
        requires { 0 < scale }
        ensures { option_map seen_size result ≡ fitting (record { scale = scale; reach = reach }) }
    {
        if scale <= MOST && reach <= MOST {
            Some(Size { scale, reach })
        } else {
            None
        }
    }

    /// The reach at a scale that this one divides.
    fn widened(&self, common: u128) -> Option<u128>
        ensures { result ≡ cond (nat_lt (self.now.reach * (common / self.now.scale)) (2 ^ 128)) (Some (self.now.reach * (common / self.now.scale))) None }
    {
        self.reach.checked_mul(common / self.scale)
    }
}

/// The least common multiple. `None` when it doesn't fit.
#[tactic(auto, using(crate::proofs::Divisors::gcd_above, crate::proofs::Divisors::lcm_is))]
fn least_common_multiple(a: u128, b: u128) -> Option<u128>
    requires first { 0 < a }
    requires second { 0 < b }
    ensures { result ≡ cond (nat_lt (multiple a b) (2 ^ 128)) (Some (multiple a b)) None }
{
    a.checked_mul(b / gcd(a, b))
}
