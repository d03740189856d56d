//! The faults and the typed form of products.

ghost use Rattle.std.specs.Prelude.{◌≡◌, ◌&&◌, false, true, not, cond, Some, None, IfOk};
ghost use Rattle.dsl_tree.specs.osc_base.FaultRows.{first_fault};
ghost use Rattle.expr_nodes.specs.units_si.ExponentTests.{are_exponents};
ghost use Rattle.expr_nodes.specs.Sizes.{size, multiplied, is_wide};
ghost use Rattle.expr_nodes.specs.Parts.{on_two, of_two, both_numbers};
ghost use Rattle.expr_nodes.specs.Operators.{exponents_in, product_exponents as exponents_of_product, product_rows, product_typed, product_of as product_node};
ghost use Rattle.expr_nodes.specs.Seen.{seen, seen_kind, seen_part};

use crate::rows::with_part;
use dsl_tree::osc_base::FaultCode;
use expr_nodes::{Boxed, Checked, Exponents, Fault, Info, Join, Place, Typed, ValueKind};
use std::alloc::{AllocError, Global};
use typed_parts::{NO_EXPONENTS, are_no_numbers, are_numbers, are_whole, fault_if, least};

/// The exponents of a number.
pub fn exponents_of(kind: &ValueKind) -> Exponents
    ensures { result ≡ exponents_in (seen_kind kind.now) }
{
    match kind {
        ValueKind::Number(exponents) => *exponents,
        ValueKind::Truth
        | ValueKind::Member(_)
        | ValueKind::Chars
        | ValueKind::Object(_)
        | ValueKind::Phase(_) => NO_EXPONENTS,
    }
}

/// A product adds exponents. `None` when one leaves its limits.
fn product_exponents(left: &Typed, right: &Typed) -> Option<Exponents>
    ensures { result ≡ cond (are_exponents (exponents_of_product (seen left.now) (seen right.now))) (Some (exponents_of_product (seen left.now) (seen right.now))) None }
{
    let left = exponents_of(&left.info().kind);
    let right = exponents_of(&right.info().kind);
    left.plus(&right)
}

fn is_past_limits(left: &Typed, right: &Typed) -> bool
    ensures { result ≡ (both_numbers (seen left.now) (seen right.now) && not (are_exponents (exponents_of_product (seen left.now) (seen right.now)))) }
{
    are_numbers(left, right) && product_exponents(left, right).is_none()
}

fn are_past_limits(left: &Option<Boxed<Typed>>, right: &Option<Boxed<Typed>>) -> bool
    ensures { result ≡ of_two (seen_part left.now) (seen_part right.now) (λ x y. both_numbers x y && not (are_exponents (exponents_of_product x y))) }
{
    match (left, right) {
        (Some(x), Some(y)) => is_past_limits(x.get(), y.get()),
        (Some(_), None) | (None, _) => false,
    }
}

fn is_product_wide(left: &Typed, right: &Typed) -> bool
    ensures { result ≡ is_wide (multiplied (size (seen left.now)) (size (seen right.now))) }
{
    left.info().size.multiplied(&right.info().size).is_none()
}

fn are_product_wide(left: &Option<Boxed<Typed>>, right: &Option<Boxed<Typed>>) -> bool
    ensures { result ≡ of_two (seen_part left.now) (seen_part right.now) (λ x y. is_wide (multiplied (size x) (size y))) }
{
    match (left, right) {
        (Some(x), Some(y)) => is_product_wide(x.get(), y.get()),
        (Some(_), None) | (None, _) => false,
    }
}

fn product_fault(
    place: Place,
    left: &Option<Boxed<Typed>>,
    right: &Option<Boxed<Typed>>,
) -> Option<Fault>
    ensures { result ≡ first_fault (product_rows place (seen_part left.now) (seen_part right.now)) }
{
    let clash = are_whole(left, right, are_no_numbers(left, right));
    let clash = fault_if(place, FaultCode::Clash, clash);
    let units = fault_if(place, FaultCode::UnitClash, are_past_limits(left, right));
    let wide = fault_if(place, FaultCode::Wide, are_product_wide(left, right));
    least(least(clash, units), wide)
}

/// The product. `None` when its exponents leave their limits, or it is too wide.
pub fn product_pair(
    alloc: Global,
    left: Boxed<Typed>,
    right: Boxed<Typed>,
) -> Result<Option<Boxed<Typed>>, AllocError>
    ensures { IfOk result (λ t. are_exponents (exponents_of_product (seen left) (seen right)) ≡ true → is_wide (multiplied (size (seen left)) (size (seen right))) ≡ false → seen_part t ≡ Some (product_node (seen left) (seen right))) }
{
    let held = left.get().info();
    match product_exponents(left.get(), right.get()) {
        Some(exponents) => match held.size.multiplied(&right.get().info().size) {
            Some(size) => {
                let info = Info {
                    place: held.place,
                    kind: ValueKind::Number(exponents),
                    size,
                };
                Ok(Some(with_part(alloc, &info, Join::Times, left, right)?))
            }
            None => Ok(None),
        },
        None => Ok(None),
    }
}

fn product_of(
    alloc: Global,
    left: Option<Boxed<Typed>>,
    right: Option<Boxed<Typed>>,
) -> Result<Option<Boxed<Typed>>, AllocError>
    ensures { IfOk result (λ t. of_two (seen_part left) (seen_part right) (λ x y. not (are_exponents (exponents_of_product x y))) ≡ false → of_two (seen_part left) (seen_part right) (λ x y. is_wide (multiplied (size x) (size y))) ≡ false → seen_part t ≡ on_two (seen_part left) (seen_part right) product_node) }
{
    match left {
        Some(left) => match right {
            Some(right) => product_pair(alloc, left, right),
            None => Ok(None),
        },
        None => Ok(None),
    }
}

/// A product.
pub fn product(
    alloc: Global,
    place: Place,
    left: Option<Boxed<Typed>>,
    right: Option<Boxed<Typed>>,
) -> Result<Checked, AllocError>
    ensures fault { IfOk result (λ c. c.fault ≡ first_fault (product_rows place (seen_part left) (seen_part right))) }
    ensures typed { IfOk result (λ c. seen_part c.typed ≡ product_typed place (seen_part left) (seen_part right)) }
{
    match product_fault(place, &left, &right) {
        None => Ok(Checked {
            fault: None,
            typed: product_of(alloc, left, right)?,
        }),
        Some(fault) => Ok(Checked {
            fault: Some(fault),
            typed: None,
        }),
    }
}
