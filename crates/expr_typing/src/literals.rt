//! The typed form of literals.

ghost use Rattle.std.specs.Prelude.{◌≡◌, ◌≤◌, ◌^◌, Some, IfOk, option_map, unsigned_abs};
ghost use Rattle.dsl_tree.specs.osc_base.LowestTerms.{decimal_number};
ghost use Rattle.dsl_tree.specs.osc_base.Fraction.{value};
ghost use Rattle.dsl_tree.specs.osc_base.FaultRows.{first_fault};
ghost use Rattle.expr_nodes.specs.Operators.{constant_at as constant_node, is_long as long_number, number_rows, number_typed, text_typed, truth_typed};
ghost use Rattle.expr_nodes.specs.Seen.{seen, seen_kind, seen_part};

use dsl_tree::Digits;
use dsl_tree::osc_base::FaultCode;
use expr_nodes::{Boxed, Checked, Fraction, Info, Place, Size, Typed, Types, ValueKind, gcd};
use std::alloc::{AllocError, Global};
use typed_parts::{NO_EXPONENTS, fault_if, truth_at};

/// The most places that a number may have. A token of a source has at most 18 digits.
const MOST_PLACES: u8 = 18;

/// A constant.
pub fn constant_at(place: Place, kind: ValueKind, number: Fraction) -> Typed
    requires top { unsigned_abs number.num ≤ 2 ^ 120 }
    requires bottom { unsigned_abs number.den ≤ 2 ^ 120 }
    ensures { seen result ≡ constant_node place (seen_kind kind) (value number) }
{
    let info = Info {
        place,
        kind,
        size: Size::constant(&number),
    };
    Typed::Constant { info, number }
}

/// A number has too many places.
pub(crate) fn is_long(digits: &Digits) -> bool
    ensures { result ≡ long_number digits.now }
{
    digits.places > MOST_PLACES
}

/// A decimal in lowest terms.
pub(crate) fn decimal(digits: u64, places: u8) -> Fraction
    requires { places ≤ 18 }
    ensures value { value result ≡ decimal_number digits places }
    ensures top { unsigned_abs result.num ≤ 2 ^ 120 }
    ensures bottom { unsigned_abs result.den ≤ 2 ^ 120 }
{
    let digits = u128::from(digits);
    let scale = 10u128.pow(u32::from(places));
    let divisor = gcd(digits, scale);
    Fraction {
        num: (digits / divisor) as i128,
        den: (scale / divisor) as i128,
    }
}

/// The constant that a number without a unit is, unless it has too many places.
fn number_node(digits: &Digits) -> Option<Typed>
    ensures { option_map seen result ≡ number_typed digits.now }
{
    if is_long(digits) {
        return None;
    }
    let number = decimal(digits.digits, digits.places);
    let kind = ValueKind::Number(NO_EXPONENTS);
    Some(constant_at(digits.place, kind, number))
}

fn number_part(alloc: Global, digits: &Digits) -> Result<Option<Boxed<Typed>>, AllocError>
    ensures { IfOk result (λ t. seen_part t ≡ number_typed digits.now) }
{
    match number_node(digits) {
        Some(typed) => Ok(Some(Boxed::new(alloc, typed)?)),
        None => Ok(None),
    }
}

/// A number without a unit. One of more than 18 places is refused with the code of numbers that no field can hold.
pub fn number(alloc: Global, digits: &Digits) -> Result<Checked, AllocError>
    ensures fault { IfOk result (λ c. c.fault ≡ first_fault (number_rows digits.now)) }
    ensures typed { IfOk result (λ c. seen_part c.typed ≡ number_typed digits.now) }
{
    let fault = fault_if(digits.place, FaultCode::TooLarge, is_long(digits));
    let typed = number_part(alloc, digits)?;
    Ok(Checked { fault, typed })
}

/// `true` or `false`.
pub fn truth(place: Place, value: bool) -> Typed
    ensures { Some (seen result) ≡ truth_typed place value }
{
    let number = Fraction {
        num: i128::from(value),
        den: 1,
    };
    Typed::Constant {
        info: truth_at(place),
        number,
    }
}

/// A text is its number in the ordered list of texts.
pub fn text(types: &Types, place: Place, text: &str) -> Typed
    ensures { Some (seen result) ≡ text_typed types.now.table place text.now }
{
    let number = Fraction {
        num: types.text_number(text) as i128,
        den: 1,
    };
    constant_at(place, ValueKind::Chars, number)
}
