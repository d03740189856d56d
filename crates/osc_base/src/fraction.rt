ghost use Rattle.std.specs.Prelude.{◌≡◌, ℕ, ◌↔◌, ◌+◌, ◌/◌, ◌^◌, ◌<◌, ◌≤◌, pos, ◌+ℤ◌, ◌*ℤ◌, ◌≤ℤ◌, unsigned_abs, IsSome, IfSome};
ghost use Rattle.std.specs.Option.{SomeIff};
ghost use Rattle.std.specs.Int.{IsGcd, ◌∣◌};
ghost use Rattle.osc_base.specs.Number.{IsFloor, IsNearestThousandth, IsSame, IsWithin, order, plus};
ghost use Rattle.osc_base.specs.Number.{product as product_of};

use crate::euclid::{gcd, least_common_multiple};
use std::cmp::Ordering;

/// An exact fraction. Its denominator is at least 1.
///
/// Fractions with different terms may stand for one number. A call returns `None` when a part of its calculation
/// passes 2^120 in magnitude.
#[derive(Debug, Clone, Copy)]
pub struct Fraction {
    pub num: i128,
    pub den: i128,
    ghost positive: { pos 1 ≤ℤ den },
}

/// The most digits of a decimal, read as one number, and the most of them after its point.
const MOST_DIGITS: u64 = 999_999_999_999_999_999;

const MOST_PLACES: u32 = 18;

/// The greatest magnitude of a part of a calculation, 2^120.
const MOST: u128 = 0x100_0000_0000_0000_0000_0000_0000_0000;

/// Two numerators over one denominator.
#[derive(Clone, Copy)]
struct Widened {
    common: i128,
    left: i128,
    right: i128,
}

impl Fraction {
    ghost use Rattle.osc_base.specs.Fraction.{AddsExactly, AreWithin, ComparesExactly, MultipliesExactly, OverCommon, RoundsExactly, value};

    /// `digits / 10^places` in lowest terms. `None` when `places` passes 18 or `digits` passes 10^18 - 1.
    pub fn decimal(digits: u64, places: u32) -> Option<Fraction>
        ensures exact { IsSome result ↔ ((places ≤ 18) × (digits < 10 ^ 18)) }
        ensures value { IfSome result (λ f. IsSame (value f) (record { numerator = pos digits; denominator = pos (10 ^ places) })) }
        ensures lowest { IfSome result (λ f. IsGcd (unsigned_abs f.num) (unsigned_abs f.den) 1) }
    {
        if places > MOST_PLACES || digits > MOST_DIGITS {
            return None;
        }
        let digits = u128::from(digits);
        let scale = 10u128.pow(places);
        let divisor = gcd(digits, scale);
        Some(Fraction {
            num: (digits / divisor) as i128,
            den: (scale / divisor) as i128,
        })
    }

    /// The sum, over the least common multiple of the denominators. `None` when that denominator, a numerator
    /// widened to it or the sum passes 2^120.
    pub fn add(&self, other: &Fraction) -> Option<Fraction>
        ensures exact { AddsExactly self.now other.now result }
        ensures value { IfSome result (λ f. IsSame (value f) (plus (value self.now) (value other.now))) }
    {
        let widened = self.widened(other)?;
        Some(Fraction {
            num: sum(widened.left, widened.right)?,
            den: widened.common,
        })
    }

    /// The product of the numerators over that of the denominators. `None` when one of these passes 2^120.
    pub fn times(&self, other: &Fraction) -> Option<Fraction>
        ensures exact { MultipliesExactly self.now other.now result }
        ensures value { IfSome result (λ f. IsSame (value f) (product_of (value self.now) (value other.now))) }
    {
        Some(Fraction {
            num: product(self.num, other.num)?,
            den: product(self.den, other.den)?,
        })
    }

    /// How the two numbers compare. `None` when the least common multiple of the denominators or a numerator widened
    /// to it passes 2^120.
    pub fn compare(&self, other: &Fraction) -> Option<Ordering>
        ensures exact { ComparesExactly self.now other.now result }
        ensures value { IfSome result (λ ordering. ordering ≡ order (value self.now) (value other.now)) }
    {
        let widened = self.widened(other)?;
        Some(widened.left.cmp(&widened.right))
    }

    /// The nearest whole number of thousandths, halves upward: the floor of `(2000 * num + den) / (2 * den)`. `None`
    /// when a product or the sum in this passes 2^120.
    pub fn nearest_thousandth(&self) -> Option<i128>
        ensures exact { RoundsExactly self.now result }
        ensures value { IfSome result (λ count. IsNearestThousandth (value self.now) count) }
    {
        let raised = sum(product(2000, self.num)?, self.den)?;
        let scale = product(2, self.den)?;
        Some(floor(raised, scale))
    }

    /// Both fractions over the least common multiple of their denominators.
    fn widened(&self, other: &Fraction) -> Option<Widened>
        ensures { (over : OverCommon self.now other.now) × SomeIff result (AreWithin over) (record { common = pos over.common; left = over.left; right = over.right }) }
    {
        let common = least_common_multiple(self.den.unsigned_abs(), other.den.unsigned_abs())?;
        Some(Widened {
            common: common as i128,
            left: self.widened_num(common)?,
            right: other.widened_num(common)?,
        })
    }

    /// The numerator over a multiple of the denominator.
    fn widened_num(&self, common: u128) -> Option<i128>
        requires multiple { unsigned_abs self.now.den ∣ common }
        requires small { common ≤ 2 ^ 120 }
        ensures { SomeIff result (IsWithin (self.now.num *ℤ pos (common / unsigned_abs self.now.den))) (self.now.num *ℤ pos (common / unsigned_abs self.now.den)) }
    {
        product(self.num, (common / self.den.unsigned_abs()) as i128)
    }
}

/// The floor of `num / den`.
fn floor(num: i128, den: i128) -> i128
    requires { pos 1 ≤ℤ den }
    ensures { IsFloor (record { numerator = num; denominator = den }) result }
{
    num.div_euclid(den)
}

fn within(part: i128) -> Option<i128>
    ensures { SomeIff result (IsWithin part) part }
{
    if part.unsigned_abs() <= MOST {
        Some(part)
    } else {
        None
    }
}

fn product(a: i128, b: i128) -> Option<i128>
    ensures { SomeIff result (IsWithin (a *ℤ b)) (a *ℤ b) }
{
    within(a.checked_mul(b)?)
}

fn sum(a: i128, b: i128) -> Option<i128>
    ensures { SomeIff result (IsWithin (a +ℤ b)) (a +ℤ b) }
{
    within(a.checked_add(b)?)
}
