//! The faults and the typed form of sums and differences.

ghost use Rattle.std.specs.Prelude.{◌≡◌, false, Some, IfOk};
ghost use Rattle.dsl_tree.specs.osc_base.FaultRows.{first_fault};
ghost use Rattle.expr_nodes.specs.Typed.{Minus, info as info_of};
ghost use Rattle.expr_nodes.specs.Sizes.{size, joined, is_wide};
ghost use Rattle.expr_nodes.specs.Parts.{on_one, on_two, of_two};
ghost use Rattle.expr_nodes.specs.Operators.{minus_rows, minus_typed, sum_rows, sum_typed, added as added_part, sum_of as sum_node};
ghost use Rattle.expr_nodes.specs.Seen.{seen, seen_part};

use crate::rows::with_part;
use dsl_tree::Operator;
use dsl_tree::osc_base::FaultCode;
use expr_nodes::{Boxed, Checked, Fault, Info, Join, Place, Typed};
use std::alloc::{AllocError, Global};
use typed_parts::{
    are_joined_wide, are_no_numbers, are_whole, fault_if, have_other_units, is_no_number, is_whole,
    least,
};

fn minus_fault(place: Place, part: &Option<Boxed<Typed>>) -> Option<Fault>
    ensures { result ≡ first_fault (minus_rows place (seen_part part.now)) }
{
    fault_if(
        place,
        FaultCode::Clash,
        is_whole(part) || is_no_number(part),
    )
}

/// A part with the other sign, which begins at the place.
fn minus_at(alloc: Global, place: Place, part: Boxed<Typed>) -> Result<Boxed<Typed>, AllocError>
    ensures { IfOk result (λ t. seen t ≡ Minus (record (info_of (seen part)) { place = place }) (seen part)) }
{
    let held = part.get().info();
    let info = Info {
        place,
        kind: held.kind,
        size: held.size,
    };
    Boxed::new(alloc, Typed::Minus { info, part })
}

fn minus_of(
    alloc: Global,
    place: Place,
    part: Option<Boxed<Typed>>,
) -> Result<Option<Boxed<Typed>>, AllocError>
    ensures { IfOk result (λ t. seen_part t ≡ on_one (seen_part part) (λ x. Minus (record (info_of x) { place = place }) x)) }
{
    match part {
        Some(part) => Ok(Some(minus_at(alloc, place, part)?)),
        None => Ok(None),
    }
}

/// A minus.
pub(crate) fn minus(
    alloc: Global,
    place: Place,
    part: Option<Boxed<Typed>>,
) -> Result<Checked, AllocError>
    ensures fault { IfOk result (λ c. c.fault ≡ first_fault (minus_rows place (seen_part part))) }
    ensures typed { IfOk result (λ c. seen_part c.typed ≡ minus_typed place (seen_part part)) }
{
    match minus_fault(place, &part) {
        None => Ok(Checked {
            fault: None,
            typed: minus_of(alloc, place, part)?,
        }),
        Some(fault) => Ok(Checked {
            fault: Some(fault),
            typed: None,
        }),
    }
}

fn sum_fault(
    place: Place,
    left: &Option<Boxed<Typed>>,
    right: &Option<Boxed<Typed>>,
) -> Option<Fault>
    ensures { result ≡ first_fault (sum_rows place (seen_part left.now) (seen_part right.now)) }
{
    let clash = are_whole(left, right, are_no_numbers(left, right));
    let clash = fault_if(place, FaultCode::Clash, clash);
    let units = fault_if(place, FaultCode::UnitClash, have_other_units(left, right));
    let wide = fault_if(place, FaultCode::Wide, are_joined_wide(left, right));
    least(least(clash, units), wide)
}

/// What is added: a difference adds the opposite.
fn added(alloc: Global, operator: Operator, part: Boxed<Typed>) -> Result<Boxed<Typed>, AllocError>
    ensures { IfOk result (λ t. seen t ≡ added_part operator (seen part)) }
{
    match operator {
        Operator::Dash => {
            let place = part.get().info().place;
            minus_at(alloc, place, part)
        }
        Operator::Or | Operator::And | Operator::Plus | Operator::Star | Operator::Slash => {
            Ok(part)
        }
    }
}

/// The sum or difference. `None` when it is too wide.
fn sum_pair(
    alloc: Global,
    operator: Operator,
    left: Boxed<Typed>,
    right: Boxed<Typed>,
) -> Result<Option<Boxed<Typed>>, AllocError>
    ensures { IfOk result (λ t. is_wide (joined (size (seen left)) (size (seen right))) ≡ false → seen_part t ≡ Some (sum_node operator (seen left) (seen right))) }
{
    let held = left.get().info();
    match held.size.joined(&right.get().info().size) {
        Some(size) => {
            let info = Info {
                place: held.place,
                kind: held.kind,
                size,
            };
            let right = added(alloc, operator, right)?;
            Ok(Some(with_part(alloc, &info, Join::Sum, left, right)?))
        }
        None => Ok(None),
    }
}

fn sum_of(
    alloc: Global,
    operator: Operator,
    left: Option<Boxed<Typed>>,
    right: Option<Boxed<Typed>>,
) -> Result<Option<Boxed<Typed>>, AllocError>
    ensures { IfOk result (λ t. of_two (seen_part left) (seen_part right) (λ x y. is_wide (joined (size x) (size y))) ≡ false → seen_part t ≡ on_two (seen_part left) (seen_part right) (sum_node operator)) }
{
    match left {
        Some(left) => match right {
            Some(right) => sum_pair(alloc, operator, left, right),
            None => Ok(None),
        },
        None => Ok(None),
    }
}

/// A sum or difference.
pub(crate) fn sum(
    alloc: Global,
    place: Place,
    operator: Operator,
    left: Option<Boxed<Typed>>,
    right: Option<Boxed<Typed>>,
) -> Result<Checked, AllocError>
    ensures fault { IfOk result (λ c. c.fault ≡ first_fault (sum_rows place (seen_part left) (seen_part right))) }
    ensures typed { IfOk result (λ c. seen_part c.typed ≡ sum_typed place operator (seen_part left) (seen_part right)) }
{
    match sum_fault(place, &left, &right) {
        None => Ok(Checked {
            fault: None,
            typed: sum_of(alloc, operator, left, right)?,
        }),
        Some(fault) => Ok(Checked {
            fault: Some(fault),
            typed: None,
        }),
    }
}
