//! The numbers of factors and offsets.

ghost use Rattle.std.specs.Prelude.{◌≡◌, ◌≤◌, pos};
ghost use Rattle.std.specs.Option.{option_map_or};
ghost use Rattle.units_si.specs.osc_base.Number.{whole};
ghost use Rattle.units_si.specs.osc_base.Fraction.{value};
ghost use Rattle.type_heads.specs.Exponents.{signed_decimal};
ghost use Rattle.type_heads.specs.Units.{signed, signed_number};

use name_scope::dsl_tree::Signed;
use units_si::osc_base::{Fraction, gcd};

/// A numerator with its sign.
fn with_sign(minus: bool, top: u64) -> i128
    ensures { result ≡ signed minus (pos top) }
{
    let top = i128::from(top);
    if minus { -top } else { top }
}

/// A decimal in lowest terms, with its sign.
#[tactic(auto, using(crate::proofs::Divisors::gcd_above_second, crate::proofs::Divisors::share_above))]
fn decimal(minus: bool, digits: u64, places: u8) -> Fraction
    requires { places ≤ 18 }
    ensures { value result ≡ signed_decimal minus digits places }
{
    let digits = u128::from(digits);
    let scale = 10u128.pow(u32::from(places));
    let divisor = gcd(digits, scale);
    Fraction {
        num: with_sign(minus, (digits / divisor) as u64),
        den: (scale / divisor) as i128,
    }
}

/// The most places behind the point: the grammar has no more.
const MOST_PLACES: u8 = 18;

/// The number that is written.
fn written(number: Signed) -> Fraction
    ensures { value result ≡ signed_number number }
{
    let digits = number.number;
    let places = digits.places.min(MOST_PLACES);
    decimal(number.minus, digits.digits, places)
}

/// The factor of a unit, 1 if none is written.
pub fn factor(number: Option<Signed>) -> Fraction
    ensures { value result ≡ option_map_or signed_number number (whole (pos 1)) }
{
    match number {
        Some(number) => written(number),
        None => Fraction { num: 1, den: 1 },
    }
}

/// The offset of a unit, 0 if none is written.
pub fn offset(number: Option<Signed>) -> Fraction
    ensures { value result ≡ option_map_or signed_number number (whole (pos 0)) }
{
    match number {
        Some(number) => written(number),
        None => Fraction { num: 0, den: 1 },
    }
}
