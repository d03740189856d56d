//! Whole numbers at a scale, and how they are added, multiplied and compared.

ghost use Rattle.std.specs.Prelude.{◌≡◌, ◌≤◌, ◌<◌, ◌*◌, ◌/◌, ◌^◌, ◌*ℤ◌, ◌&&◌, ◌||◌, neg_ℤ, pos, false, not, unsigned_abs, unwrap_or};
ghost use Rattle.expr_nodes.specs.osc_base.LowestTerms.{lcm};
ghost use Rattle.expr_value.specs.Counted.{orders};

use expr_nodes::{Compare, Fraction, Join, Size, gcd};

/// A value times its scale. It is at most the reach in magnitude.
#[derive(Clone, Copy)]
pub(crate) struct Count {
    pub count: i128,
    pub size: Size,
    ghost within: { unsigned_abs count ≤ size.reach },
}

/// The least common multiple of two scales.
fn least_common_multiple(a: u128, b: u128) -> u128
    requires first { 0 < a }
    requires small { lcm a b ≤ 2 ^ 120 }
    ensures { result ≡ lcm a b }
{
    a * (b / gcd(a, b))
}

impl Count {
    ghost use Rattle.expr_nodes.specs.Sizes.{unit_size, is_wide, joined as joined_size};
    ghost use Rattle.expr_nodes.specs.Seen.{seen_size};
    ghost use Rattle.expr_value.specs.Counted.{at_scale, truth_count, is_full, sum_count, compares_counts, orders};
    ghost use Rattle.expr_value.specs.Rows.{join_size, join_count};

    /// The count of a number whose denominator is the scale.
    pub fn of_number(number: &Fraction, size: Size) -> Count
        requires { unsigned_abs number.now.num ≤ size.reach }
        ensures sized { result.size ≡ size }
        ensures same { result.count ≡ number.now.num }
    {
        Count {
            count: number.num,
            size,
        }
    }

    /// The count that a path holds, or 0.
    pub fn of_held(held: Option<i64>, size: Size) -> Count
        requires { unsigned_abs (unwrap_or held (pos 0)) ≤ size.reach }
        ensures sized { result.size ≡ size }
        ensures same { result.count ≡ unwrap_or held (pos 0) }
    {
        let held = held.unwrap_or(0);
        Count {
            count: i128::from(held),
            size,
        }
    }

    /// Nothing that counts.
    pub fn zero(size: Size) -> Count
        ensures sized { result.size ≡ size }
        ensures same { result.count ≡ pos 0 }
    {
        Count { count: 0, size }
    }

    /// The value, over the scale.
    pub fn over_scale(&self) -> Fraction
        ensures num { result.num ≡ self.now.count }
        ensures den { result.den ≡ pos self.now.size.scale }
    {
        Fraction {
            num: self.count,
            den: self.size.scale as i128,
        }
    }

    /// 1 or 0.
    pub fn truth(holds: bool) -> Count
        ensures sized { seen_size result.size ≡ unit_size }
        ensures same { result.count ≡ truth_count holds }
    {
        Count {
            count: i128::from(holds),
            size: Size::unit(),
        }
    }

    /// The value is 1.
    pub fn is_one(&self) -> bool
        ensures { result ≡ is_full self.now.size.scale self.now.count }
    {
        self.count == self.size.scale as i128
    }

    /// 1 if the value isn't 1, else 0.
    pub fn negated(&self) -> Count
        ensures sized { seen_size result.size ≡ unit_size }
        ensures same { result.count ≡ truth_count (not (is_full self.now.size.scale self.now.count)) }
    {
        Count::truth(!self.is_one())
    }

    /// 1 if the value isn't 1 or the other is, else 0.
    pub fn implies(&self, other: &Count) -> Count
        ensures sized { seen_size result.size ≡ unit_size }
        ensures same { result.count ≡ truth_count (not (is_full self.now.size.scale self.now.count) || is_full other.now.size.scale other.now.count) }
    {
        Count::truth(!self.is_one() || other.is_one())
    }

    /// The value is from one to another.
    pub fn is_between(&self, low: &Count, high: &Count) -> bool
        requires low { is_wide (joined_size (seen_size self.now.size) (seen_size low.now.size)) ≡ false }
        requires high { is_wide (joined_size (seen_size self.now.size) (seen_size high.now.size)) ≡ false }
        ensures { result ≡ (compares_counts Compare.AtLeast self.now.size.scale self.now.count low.now.size.scale low.now.count && compares_counts Compare.AtMost self.now.size.scale self.now.count high.now.size.scale high.now.count) }
    {
        self.compares(Compare::AtLeast, low) && self.compares(Compare::AtMost, high)
    }

    /// The value with the other sign.
    pub fn opposite(&self) -> Count
        ensures sized { result.size ≡ self.now.size }
        ensures same { result.count ≡ neg_ℤ self.now.count }
    {
        Count {
            count: -self.count,
            size: self.size,
        }
    }

    /// The count at a multiple of the scale.
    fn widened(&self, common: u128) -> i128
        requires common { common ≤ 2 ^ 120 }
        requires reach { self.now.size.reach * (common / self.now.size.scale) ≤ 2 ^ 120 }
        ensures same { result ≡ at_scale common self.now.size.scale self.now.count }
        ensures within { unsigned_abs result ≤ self.now.size.reach * (common / self.now.size.scale) }
    {
        self.count * (common / self.size.scale) as i128
    }

    /// The sum of two, which has that size.
    fn plus(&self, other: &Count, size: Size) -> Count
        requires { seen_size size ≡ joined_size (seen_size self.now.size) (seen_size other.now.size) }
        ensures sized { result.size ≡ size }
        ensures same { result.count ≡ sum_count self.now.size.scale self.now.count other.now.size.scale other.now.count }
    {
        Count {
            count: self.widened(size.scale) + other.widened(size.scale),
            size,
        }
    }

    /// The product of two, which has that size.
    fn times(&self, other: &Count, size: Size) -> Count
        requires scale { size.scale ≡ self.now.size.scale * other.now.size.scale }
        requires reach { size.reach ≡ self.now.size.reach * other.now.size.reach }
        ensures sized { result.size ≡ size }
        ensures same { result.count ≡ self.now.count *ℤ other.now.count }
    {
        Count {
            count: self.count * other.count,
            size,
        }
    }

    /// Two of a row, which have that size.
    pub fn join(&self, join: Join, other: &Count, size: Size) -> Count
        requires { seen_size size ≡ join_size join (seen_size self.now.size) (seen_size other.now.size) }
        ensures sized { seen_size result.size ≡ seen_size size }
        ensures same { result.count ≡ join_count join self.now.size.scale self.now.count other.now.size.scale other.now.count }
    {
        match join {
            Join::Sum => self.plus(other, size),
            Join::Times => self.times(other, size),
            Join::And => Count::truth(self.is_one() && other.is_one()),
            Join::Or => Count::truth(self.is_one() || other.is_one()),
        }
    }

    /// A comparison holds of two.
    pub fn compares(&self, sign: Compare, other: &Count) -> bool
        requires { is_wide (joined_size (seen_size self.now.size) (seen_size other.now.size)) ≡ false }
        ensures { result ≡ compares_counts sign self.now.size.scale self.now.count other.now.size.scale other.now.count }
    {
        let common = least_common_multiple(self.size.scale, other.size.scale);
        are_so(sign, self.widened(common), other.widened(common))
    }
}

/// A comparison holds of two whole numbers.
fn are_so(sign: Compare, left: i128, right: i128) -> bool
    ensures { result ≡ orders sign left right }
{
    match sign {
        Compare::Equal => left == right,
        Compare::Differ => left != right,
        Compare::Below => left < right,
        Compare::AtMost => left <= right,
        Compare::Above => left > right,
        Compare::AtLeast => left >= right,
    }
}
