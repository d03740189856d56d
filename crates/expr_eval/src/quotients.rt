//! Products and quotients.

ghost use Rattle.std.specs.Prelude.{◌≡◌, ◌&&◌, ◌<◌, ◌≤◌, ◌^◌, ◌∷◌, [], true, false, not, cond, Some, None, IfOk, unsigned_abs};
ghost use Rattle.osc_base.specs.declared.fault.Place.{Place};
ghost use Rattle.osc_base.specs.declared.fault.FaultCode.{FaultCode};
ghost use Rattle.osc_base.specs.FaultRows.{first_fault, row};
ghost use Rattle.osc_base.specs.Fraction.{value};
ghost use Rattle.osc_base.specs.LowestTerms.{lowest as lowest_terms};
ghost use Rattle.dsl_tree.specs.ExprTree.{ExprTree};
ghost use Rattle.expr_typing.specs.units_si.ExponentTests.{are_exponents};
ghost use Rattle.expr_typing.specs.type_heads.Table.{Table};
ghost use Rattle.expr_nodes.specs.Scope.{Scope};
ghost use Rattle.expr_nodes.specs.Sizes.{size, divided, is_wide};
ghost use Rattle.expr_nodes.specs.Parts.{on_two};
ghost use Rattle.expr_nodes.specs.Operators.{is_zero as zero, constant_value as value_of_constant, has_quotient, reciprocal as one_over, reciprocal_exponents as exponents_over, reciprocal_of, product_of, quotient_rows, quotient_typed, factor_rows, factor_typed};
ghost use Rattle.expr_nodes.specs.Sound.{is_sound};
ghost use Rattle.expr_nodes.specs.Seen.{seen, seen_part};
ghost use Rattle.expr_nodes.specs.Checks.{IsChecked};
ghost use Rattle.expr_eval.specs.DivisorValues.{reciprocal_by, seen_divisor, divisor_value, is_zero_value, is_wide_by, sound_part};

use crate::divisor::Divisor;
use dsl_tree::Operator;
use expr_nodes::{Checked, Typed, ValueKind};
use expr_operators::constants::is_constant;
use expr_operators::products::{product, product_pair};
use expr_operators::quotients::{are_past_limits, is_varying, reciprocal_exponents};
use expr_operators::{are_no_numbers, are_whole, fault_if, least, with_parts};
use expr_typing::literals::constant_at;
use expr_value::constant;
use osc_base::{Boxed, Fault, FaultCode, Fraction, Place, gcd};
use std::alloc::{AllocError, Global};

/// The denominator, which is above 0.
fn bottom_of(number: &Fraction) -> u128
    ensures value { result ≡ unsigned_abs number.now.den }
    ensures above { 0 < result }
{
    number.den.unsigned_abs()
}

/// A number in lowest terms.
fn lowest(number: &Fraction) -> Divisor
    requires top { unsigned_abs number.now.num ≤ 2 ^ 120 }
    requires bottom { unsigned_abs number.now.den ≤ 2 ^ 120 }
    ensures { value result.number ≡ lowest_terms number.now.num (unsigned_abs number.now.den) }
{
    let top = number.num.unsigned_abs();
    let bottom = bottom_of(number);
    let divisor = gcd(top, bottom);
    let shared = (top / divisor) as i128;
    let number = Fraction {
        num: if number.num < 0 { -shared } else { shared },
        den: (bottom / divisor) as i128,
    };
    Divisor { number }
}

/// The value of a constant, in lowest terms.
fn constant_value(divisor: &Typed) -> Divisor
    requires { is_sound (seen divisor.now) ≡ true }
    ensures { value result.number ≡ value_of_constant (seen divisor.now) }
{
    lowest(&constant(divisor))
}

/// The value of a divisor, if it is there and constant.
fn divisor_of(right: &Option<Boxed<Typed>>) -> Option<Divisor>
    requires { sound_part (seen_part right.now) ≡ true }
    ensures { seen_divisor result ≡ divisor_value (seen_part right.now) }
{
    match right {
        Some(divisor) => {
            if is_constant(divisor.get()) {
                Some(constant_value(divisor.get()))
            } else {
                None
            }
        }
        None => None,
    }
}

/// The divisor is 0.
fn is_zero(divisor: &Option<Divisor>) -> bool
    ensures { result ≡ is_zero_value (seen_divisor divisor.now) }
{
    match divisor {
        Some(divisor) => divisor.number.num == 0,
        None => false,
    }
}

/// The quotient by a number other than 0 is too wide.
fn is_wide_over(left: &Typed, divisor: &Divisor) -> bool
    ensures { result ≡ (not (zero (value divisor.now.number)) && is_wide (divided (size (seen left.now)) (value divisor.now.number))) }
{
    divisor.number.num != 0 && left.info().size.divided(&divisor.number).is_none()
}

fn are_wide_over(left: &Option<Boxed<Typed>>, divisor: &Option<Divisor>) -> bool
    ensures { result ≡ is_wide_by (seen_part left.now) (seen_divisor divisor.now) }
{
    match (left, divisor) {
        (Some(left), Some(divisor)) => is_wide_over(left.get(), divisor),
        (Some(_), None) | (None, _) => false,
    }
}

/// The first of the faults of a quotient.
fn first_of_five(
    place: Place,
    clash: bool,
    units: bool,
    varying: bool,
    zero: bool,
    wide: bool,
) -> Option<Fault>
    ensures { result ≡ first_fault (row place FaultCode.Clash clash ∷ row place FaultCode.UnitClash units ∷ row place FaultCode.NotConstant varying ∷ row place FaultCode.ZeroDivisor zero ∷ row place FaultCode.Wide wide ∷ []) }
{
    let clash = fault_if(place, FaultCode::Clash, clash);
    let units = fault_if(place, FaultCode::UnitClash, units);
    let varying = fault_if(place, FaultCode::NotConstant, varying);
    let zero = fault_if(place, FaultCode::ZeroDivisor, zero);
    let wide = fault_if(place, FaultCode::Wide, wide);
    least(least(least(least(clash, units), varying), zero), wide)
}

fn quotient_fault(
    place: Place,
    left: &Option<Boxed<Typed>>,
    right: &Option<Boxed<Typed>>,
    divisor: &Option<Divisor>,
) -> Option<Fault>
    ensures { seen_divisor divisor.now ≡ divisor_value (seen_part right.now) → result ≡ first_fault (quotient_rows place (seen_part left.now) (seen_part right.now)) }
{
    let other = are_no_numbers(left, right);
    let clash = are_whole(left, right, other);
    let units = are_past_limits(left, right);
    let varying = is_varying(right);
    let zero = is_zero(divisor);
    let wide = are_wide_over(left, divisor);
    first_of_five(place, clash, units, varying, zero, wide)
}

/// One over a divisor other than 0.
fn reciprocal(divisor: &Divisor) -> Divisor
    requires { 0 < unsigned_abs divisor.now.number.num }
    ensures { value result.number ≡ one_over (value divisor.now.number) }
{
    let number = divisor.number;
    let number = Fraction {
        num: if number.num < 0 {
            -number.den
        } else {
            number.den
        },
        den: number.num.unsigned_abs() as i128,
    };
    Divisor { number }
}

/// One over a divisor other than 0, as a constant. `None` when an exponent leaves its limits.
fn reciprocal_at(
    alloc: Global,
    right: &Typed,
    divisor: &Divisor,
) -> Result<Option<Boxed<Typed>>, AllocError>
    requires { 0 < unsigned_abs divisor.now.number.num }
    ensures { IfOk result (λ t. seen_part t ≡ cond (are_exponents (exponents_over (seen right.now))) (Some (reciprocal_by (seen right.now) (value divisor.now.number))) None) }
{
    match reciprocal_exponents(right) {
        Some(exponents) => {
            let kind = ValueKind::Number(exponents);
            let number = reciprocal(divisor).number;
            let constant = constant_at(right.info().place, kind, number);
            Ok(Some(Boxed::new(alloc, constant)?))
        }
        None => Ok(None),
    }
}

/// The quotient, unless the divisor is 0, exponents leave their limits, or it is too wide.
fn quotient_pair(
    alloc: Global,
    left: Boxed<Typed>,
    right: &Typed,
    divisor: &Divisor,
) -> Result<Option<Boxed<Typed>>, AllocError>
    ensures { IfOk result (λ t. value divisor.now.number ≡ value_of_constant (seen right.now) → zero (value divisor.now.number) ≡ false → has_quotient (seen left) (seen right.now) ≡ true → is_wide (divided (size (seen left)) (value divisor.now.number)) ≡ false → seen_part t ≡ Some (product_of (seen left) (reciprocal_of (seen right.now)))) }
{
    if divisor.number.num == 0 {
        return Ok(None);
    }
    match reciprocal_at(alloc, right, divisor)? {
        Some(over) => product_pair(alloc, left, over),
        None => Ok(None),
    }
}

/// The quotient of what is known, if there is one.
fn quotient_of(
    alloc: Global,
    left: Option<Boxed<Typed>>,
    right: &Option<Boxed<Typed>>,
    divisor: &Option<Divisor>,
) -> Result<Option<Boxed<Typed>>, AllocError>
    ensures { IfOk result (λ t. (p : Place) → seen_divisor divisor.now ≡ divisor_value (seen_part right.now) → None ≡ first_fault (quotient_rows p (seen_part left) (seen_part right.now)) → seen_part t ≡ on_two (seen_part left) (seen_part right.now) (λ x y. product_of x (reciprocal_of y))) }
{
    match left {
        Some(left) => match right {
            Some(right) => match divisor {
                Some(divisor) => quotient_pair(alloc, left, right.get(), divisor),
                None => Ok(None),
            },
            None => Ok(None),
        },
        None => Ok(None),
    }
}

/// A quotient.
fn quotient(
    alloc: Global,
    place: Place,
    left: Option<Boxed<Typed>>,
    right: Option<Boxed<Typed>>,
) -> Result<Checked, AllocError>
    requires { sound_part (seen_part right) ≡ true }
    ensures fault { IfOk result (λ c. c.fault ≡ first_fault (quotient_rows place (seen_part left) (seen_part right))) }
    ensures typed { IfOk result (λ c. seen_part c.typed ≡ quotient_typed place (seen_part left) (seen_part right)) }
{
    let divisor = divisor_of(&right);
    match quotient_fault(place, &left, &right, &divisor) {
        None => Ok(Checked {
            fault: None,
            typed: quotient_of(alloc, left, &right, &divisor)?,
        }),
        Some(fault) => Ok(Checked {
            fault: Some(fault),
            typed: None,
        }),
    }
}

/// A product or quotient.
fn factor(
    alloc: Global,
    place: Place,
    operator: Operator,
    left: Option<Boxed<Typed>>,
    right: Option<Boxed<Typed>>,
) -> Result<Checked, AllocError>
    requires { sound_part (seen_part right) ≡ true }
    ensures fault { IfOk result (λ c. c.fault ≡ first_fault (factor_rows place operator (seen_part left) (seen_part right))) }
    ensures typed { IfOk result (λ c. seen_part c.typed ≡ factor_typed place operator (seen_part left) (seen_part right)) }
{
    match operator {
        Operator::Slash => quotient(alloc, place, left, right),
        Operator::Or | Operator::And | Operator::Plus | Operator::Dash | Operator::Star => {
            product(alloc, place, left, right)
        }
    }
}

/// A product or quotient, of parts that are known.
pub(crate) fn factored(
    alloc: Global,
    place: Place,
    operator: Operator,
    left: Checked,
    right: Checked,
) -> Result<Checked, AllocError>
    requires { sound_part (seen_part right.typed) ≡ true }
    ensures { IfOk result (λ c. (table : Table) (sc : Scope) (a b : ExprTree) → IsChecked table sc a left → IsChecked table sc b right → IsChecked table sc (ExprTree.Product place operator a b) c) }
{
    let own = factor(alloc, place, operator, left.typed, right.typed)?;
    Ok(with_parts(own, left.fault, right.fault))
}
