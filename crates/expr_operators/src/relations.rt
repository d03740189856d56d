//! The faults and the typed form of comparisons.

ghost use Rattle.std.specs.Prelude.{◌≡◌, not, IfOk};
ghost use Rattle.dsl_tree.specs.osc_base.FaultRows.{first_fault};
ghost use Rattle.expr_nodes.specs.Typed.{Relation, place_of};
ghost use Rattle.expr_nodes.specs.Parts.{on_two, of_two};
ghost use Rattle.expr_nodes.specs.Operators.{truth_at as truth_info, fit_for, comparison_rows, comparison_typed, compare_of as sign_compare, relation_rows, relation_typed};
ghost use Rattle.expr_nodes.specs.Seen.{seen, seen_part};

use crate::within::within;
use dsl_tree::RelationSign;
use dsl_tree::osc_base::FaultCode;
use expr_nodes::{Boxed, Checked, Compare, Fault, Place, Typed};
use std::alloc::{AllocError, Global};
use typed_parts::{
    are_joined_wide, are_numbers, are_whole, fault_if, have_other_units, least, truth_at,
};

/// The comparison of a sign other than `in`.
pub(crate) fn compare_of(sign: RelationSign) -> Option<Compare>
    ensures { result ≡ sign_compare sign }
{
    match sign {
        RelationSign::Equal => Some(Compare::Equal),
        RelationSign::Differ => Some(Compare::Differ),
        RelationSign::Below => Some(Compare::Below),
        RelationSign::AtMost => Some(Compare::AtMost),
        RelationSign::Above => Some(Compare::Above),
        RelationSign::AtLeast => Some(Compare::AtLeast),
        RelationSign::Within => None,
    }
}

/// The sign compares two such values.
fn are_fit(sign: Compare, left: &Typed, right: &Typed) -> bool
    ensures { result ≡ fit_for sign (seen left.now) (seen right.now) }
{
    match sign {
        Compare::Equal | Compare::Differ => left.info().kind.is_alike(&right.info().kind),
        Compare::Below | Compare::AtMost | Compare::Above | Compare::AtLeast => {
            are_numbers(left, right)
        }
    }
}

/// The sign doesn't compare two such values.
fn are_unfit(sign: Compare, left: &Option<Boxed<Typed>>, right: &Option<Boxed<Typed>>) -> bool
    ensures { result ≡ of_two (seen_part left.now) (seen_part right.now) (λ x y. not (fit_for sign x y)) }
{
    match (left, right) {
        (Some(x), Some(y)) => !are_fit(sign, x.get(), y.get()),
        (Some(_), None) | (None, _) => false,
    }
}

fn comparison_fault(
    place: Place,
    sign: Compare,
    left: &Option<Boxed<Typed>>,
    right: &Option<Boxed<Typed>>,
) -> Option<Fault>
    ensures { result ≡ first_fault (comparison_rows place sign (seen_part left.now) (seen_part right.now)) }
{
    let clash = are_whole(left, right, are_unfit(sign, left, right));
    let clash = fault_if(place, FaultCode::Clash, clash);
    let units = fault_if(place, FaultCode::UnitClash, have_other_units(left, right));
    let wide = fault_if(place, FaultCode::Wide, are_joined_wide(left, right));
    least(least(clash, units), wide)
}

fn comparison_of(
    alloc: Global,
    sign: Compare,
    left: Option<Boxed<Typed>>,
    right: Option<Boxed<Typed>>,
) -> Result<Option<Boxed<Typed>>, AllocError>
    ensures { IfOk result (λ t. seen_part t ≡ on_two (seen_part left) (seen_part right) (λ x y. Relation (truth_info (place_of x)) sign x y)) }
{
    match left {
        Some(left) => match right {
            Some(right) => {
                let info = truth_at(left.get().info().place);
                let node = Typed::Relation {
                    info,
                    sign,
                    left,
                    right,
                };
                Ok(Some(Boxed::new(alloc, node)?))
            }
            None => Ok(None),
        },
        None => Ok(None),
    }
}

/// A comparison.
pub(crate) fn comparison(
    alloc: Global,
    place: Place,
    sign: Compare,
    left: Option<Boxed<Typed>>,
    right: Option<Boxed<Typed>>,
) -> Result<Checked, AllocError>
    ensures fault { IfOk result (λ c. c.fault ≡ first_fault (comparison_rows place sign (seen_part left) (seen_part right))) }
    ensures typed { IfOk result (λ c. seen_part c.typed ≡ comparison_typed place sign (seen_part left) (seen_part right)) }
{
    match comparison_fault(place, sign, &left, &right) {
        None => Ok(Checked {
            fault: None,
            typed: comparison_of(alloc, sign, left, right)?,
        }),
        Some(fault) => Ok(Checked {
            fault: Some(fault),
            typed: None,
        }),
    }
}

/// A relation.
pub(crate) fn relation(
    alloc: Global,
    place: Place,
    sign: RelationSign,
    left: Option<Boxed<Typed>>,
    right: Option<Boxed<Typed>>,
) -> Result<Checked, AllocError>
    ensures fault { IfOk result (λ c. c.fault ≡ first_fault (relation_rows place sign (seen_part left) (seen_part right))) }
    ensures typed { IfOk result (λ c. seen_part c.typed ≡ relation_typed place sign (seen_part left) (seen_part right)) }
{
    match compare_of(sign) {
        Some(compare) => comparison(alloc, place, compare, left, right),
        None => within(alloc, place, left, right),
    }
}
