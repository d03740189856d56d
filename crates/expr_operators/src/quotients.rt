//! The tests that quotients ask of their parts.

ghost use Rattle.std.specs.Prelude.{◌≡◌, ◌&&◌, not, cond, Some, None};
ghost use Rattle.expr_nodes.specs.units_si.ExponentTests.{are_exponents};
ghost use Rattle.expr_nodes.specs.Parts.{of_one, of_two, both_numbers};
ghost use Rattle.expr_nodes.specs.Operators.{has_quotient, is_constant as constant, quotient_exponents as exponents_of_quotient, reciprocal_exponents as exponents_over};
ghost use Rattle.expr_nodes.specs.Seen.{seen, seen_part};

use crate::constants::is_constant;
use crate::products::exponents_of;
use expr_nodes::{Boxed, Exponents, Typed};
use typed_parts::{NO_EXPONENTS, are_numbers};

/// A quotient subtracts exponents. `None` when one leaves its limits.
pub fn quotient_exponents(left: &Typed, right: &Typed) -> Option<Exponents>
    ensures { result ≡ cond (are_exponents (exponents_of_quotient (seen left.now) (seen right.now))) (Some (exponents_of_quotient (seen left.now) (seen right.now))) None }
{
    let left = exponents_of(&left.info().kind);
    let right = exponents_of(&right.info().kind);
    left.minus(&right)
}

/// The exponents of one over a number. `None` when one leaves its limits.
pub fn reciprocal_exponents(number: &Typed) -> Option<Exponents>
    ensures { result ≡ cond (are_exponents (exponents_over (seen number.now))) (Some (exponents_over (seen number.now))) None }
{
    NO_EXPONENTS.minus(&exponents_of(&number.info().kind))
}

/// The exponents of a quotient are within their limits.
fn is_quotient_within(left: &Typed, right: &Typed) -> bool
    ensures { result ≡ are_exponents (exponents_of_quotient (seen left.now) (seen right.now)) }
{
    quotient_exponents(left, right).is_some()
}

/// The exponents of one over a number are within their limits.
fn is_reciprocal_within(number: &Typed) -> bool
    ensures { result ≡ are_exponents (exponents_over (seen number.now)) }
{
    reciprocal_exponents(number).is_some()
}

/// The exponents of a quotient, and those of one over its divisor, are within their limits.
fn is_within_limits(left: &Typed, right: &Typed) -> bool
    ensures { result ≡ has_quotient (seen left.now) (seen right.now) }
{
    is_quotient_within(left, right) && is_reciprocal_within(right)
}

fn is_past_limits(left: &Typed, right: &Typed) -> bool
    ensures { result ≡ (both_numbers (seen left.now) (seen right.now) && not (has_quotient (seen left.now) (seen right.now))) }
{
    are_numbers(left, right) && !is_within_limits(left, right)
}

/// The parts are numbers, and an exponent of their quotient, or of one over the divisor, leaves its limits.
pub fn are_past_limits(left: &Option<Boxed<Typed>>, right: &Option<Boxed<Typed>>) -> bool
    ensures { result ≡ of_two (seen_part left.now) (seen_part right.now) (λ x y. both_numbers x y && not (has_quotient x y)) }
{
    match (left, right) {
        (Some(x), Some(y)) => is_past_limits(x.get(), y.get()),
        (Some(_), None) | (None, _) => false,
    }
}

/// The divisor reads a path.
pub fn is_varying(divisor: &Option<Boxed<Typed>>) -> bool
    ensures { result ≡ of_one (seen_part divisor.now) (λ y. not (constant y)) }
{
    match divisor {
        Some(divisor) => !is_constant(divisor.get()),
        None => false,
    }
}
