//! The faults and the typed form of operators on truth values.

ghost use Rattle.std.specs.Prelude.{◌≡◌, IfOk};
ghost use Rattle.dsl_tree.specs.osc_base.FaultRows.{first_fault};
ghost use Rattle.expr_nodes.specs.Typed.{Not, Implies, place_of};
ghost use Rattle.expr_nodes.specs.Parts.{on_one, on_two};
ghost use Rattle.expr_nodes.specs.Operators.{truth_at as truth_info, not_rows, not_typed, logic_rows, implies_typed};
ghost use Rattle.expr_nodes.specs.Seen.{seen_part, joined, logic_typed};

use crate::rows::with_part;
use dsl_tree::osc_base::FaultCode;
use expr_nodes::{Boxed, Checked, Fault, Join, Place, Typed};
use std::alloc::{AllocError, Global};
use typed_parts::{are_no_truths, are_whole, fault_if, is_no_truth, is_whole, truth_at};

fn not_fault(place: Place, part: &Option<Boxed<Typed>>) -> Option<Fault>
    ensures { result ≡ first_fault (not_rows place (seen_part part.now)) }
{
    fault_if(place, FaultCode::Clash, is_whole(part) || is_no_truth(part))
}

fn not_of(
    alloc: Global,
    place: Place,
    part: Option<Boxed<Typed>>,
) -> Result<Option<Boxed<Typed>>, AllocError>
    ensures { IfOk result (λ t. seen_part t ≡ on_one (seen_part part) (λ x. Not (truth_info place) x)) }
{
    match part {
        Some(part) => {
            let info = truth_at(place);
            Ok(Some(Boxed::new(alloc, Typed::Not { info, part })?))
        }
        None => Ok(None),
    }
}

/// `not`.
pub(crate) fn not(
    alloc: Global,
    place: Place,
    part: Option<Boxed<Typed>>,
) -> Result<Checked, AllocError>
    ensures fault { IfOk result (λ c. c.fault ≡ first_fault (not_rows place (seen_part part))) }
    ensures typed { IfOk result (λ c. seen_part c.typed ≡ not_typed place (seen_part part)) }
{
    match not_fault(place, &part) {
        None => Ok(Checked {
            fault: None,
            typed: not_of(alloc, place, part)?,
        }),
        Some(fault) => Ok(Checked {
            fault: Some(fault),
            typed: None,
        }),
    }
}

fn logic_fault(
    place: Place,
    left: &Option<Boxed<Typed>>,
    right: &Option<Boxed<Typed>>,
) -> Option<Fault>
    ensures { result ≡ first_fault (logic_rows place (seen_part left.now) (seen_part right.now)) }
{
    let clash = are_whole(left, right, are_no_truths(left, right));
    fault_if(place, FaultCode::Clash, clash)
}

fn logic_of(
    alloc: Global,
    join: Join,
    left: Option<Boxed<Typed>>,
    right: Option<Boxed<Typed>>,
) -> Result<Option<Boxed<Typed>>, AllocError>
    ensures { IfOk result (λ t. seen_part t ≡ on_two (seen_part left) (seen_part right) (λ x y. joined join (truth_info (place_of x)) x y)) }
{
    match left {
        Some(left) => match right {
            Some(right) => {
                let info = truth_at(left.get().info().place);
                Ok(Some(with_part(alloc, &info, join, left, right)?))
            }
            None => Ok(None),
        },
        None => Ok(None),
    }
}

/// `and` or `or`.
pub(crate) fn logic(
    alloc: Global,
    place: Place,
    join: Join,
    left: Option<Boxed<Typed>>,
    right: Option<Boxed<Typed>>,
) -> Result<Checked, AllocError>
    ensures fault { IfOk result (λ c. c.fault ≡ first_fault (logic_rows place (seen_part left) (seen_part right))) }
    ensures typed { IfOk result (λ c. seen_part c.typed ≡ logic_typed join place (seen_part left) (seen_part right)) }
{
    match logic_fault(place, &left, &right) {
        None => Ok(Checked {
            fault: None,
            typed: logic_of(alloc, join, left, right)?,
        }),
        Some(fault) => Ok(Checked {
            fault: Some(fault),
            typed: None,
        }),
    }
}

fn implies_of(
    alloc: Global,
    left: Option<Boxed<Typed>>,
    right: Option<Boxed<Typed>>,
) -> Result<Option<Boxed<Typed>>, AllocError>
    ensures { IfOk result (λ t. seen_part t ≡ on_two (seen_part left) (seen_part right) (λ x y. Implies (truth_info (place_of x)) x y)) }
{
    match left {
        Some(left) => match right {
            Some(right) => {
                let info = truth_at(left.get().info().place);
                Ok(Some(Boxed::new(alloc, Typed::Implies { info, left, right })?))
            }
            None => Ok(None),
        },
        None => Ok(None),
    }
}

/// `=>`.
pub(crate) fn implies(
    alloc: Global,
    place: Place,
    left: Option<Boxed<Typed>>,
    right: Option<Boxed<Typed>>,
) -> Result<Checked, AllocError>
    ensures fault { IfOk result (λ c. c.fault ≡ first_fault (logic_rows place (seen_part left) (seen_part right))) }
    ensures typed { IfOk result (λ c. seen_part c.typed ≡ implies_typed place (seen_part left) (seen_part right)) }
{
    match logic_fault(place, &left, &right) {
        None => Ok(Checked {
            fault: None,
            typed: implies_of(alloc, left, right)?,
        }),
        Some(fault) => Ok(Checked {
            fault: Some(fault),
            typed: None,
        }),
    }
}
