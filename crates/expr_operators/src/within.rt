//! The faults and the typed form of `in`.

ghost use Rattle.std.specs.Prelude.{◌≡◌, ◌&&◌, ◌||◌, not, map, IfOk};
ghost use Rattle.std.specs.List.{list_any};
ghost use Rattle.dsl_tree.specs.osc_base.FaultRows.{first_fault};
ghost use Rattle.expr_nodes.specs.Kinds.{are_alike, same_units};
ghost use Rattle.expr_nodes.specs.Sizes.{size, joined, is_wide};
ghost use Rattle.expr_nodes.specs.Typed.{Within, kind, place_of};
ghost use Rattle.expr_nodes.specs.Parts.{on_two, of_one, of_two, both_numbers, parts_of};
ghost use Rattle.expr_nodes.specs.Operators.{truth_at as truth_info, fits_in, is_range_or_list as range_or_list, within_rows, within_typed};
ghost use Rattle.expr_nodes.specs.Seen.{seen, seen_part};

use dsl_tree::osc_base::FaultCode;
use expr_nodes::{Boxed, Checked, Fault, Place, Typed};
use std::alloc::{AllocError, Global};
use typed_parts::{
    are_numbers, differ_in_units, fault_if, is_joined_wide, is_whole, least, truth_at,
};

/// One of the items can't be compared with the value.
fn is_any_unlike(left: &Typed, items: &[Typed]) -> bool
    ensures { result ≡ list_any (λ y. not (are_alike (kind (seen left.now)) (kind y))) (map seen items.now) }
{
    for item in items {
        if !left.info().kind.is_alike(&item.info().kind) {
            return true;
        }
    }
    false
}

/// One of the items and the value are numbers of different units.
fn is_any_apart(left: &Typed, items: &[Typed]) -> bool
    ensures { result ≡ list_any (λ z. both_numbers (seen left.now) z && not (same_units (kind (seen left.now)) (kind z))) (map seen items.now) }
{
    for item in items {
        if differ_in_units(left, item) {
            return true;
        }
    }
    false
}

/// The relation of the value and one of the items is too wide.
fn is_any_wide(left: &Typed, items: &[Typed]) -> bool
    ensures { result ≡ list_any (λ z. is_wide (joined (size (seen left.now)) (size z))) (map seen items.now) }
{
    for item in items {
        if is_joined_wide(left, item) {
            return true;
        }
    }
    false
}

/// The value can be compared with each part of the range or list.
fn is_fit(left: &Typed, right: &Typed) -> bool
    ensures { result ≡ fits_in (seen left.now) (seen right.now) }
{
    match right {
        Typed::Span { low, high, .. } => {
            are_numbers(left, low.get()) && are_numbers(left, high.get())
        }
        Typed::Listed { items, .. } => !is_any_unlike(left, items.as_slice()),
        Typed::Constant { .. }
        | Typed::Read { .. }
        | Typed::Whole { .. }
        | Typed::Minus { .. }
        | Typed::Not { .. }
        | Typed::Joined { .. }
        | Typed::Implies { .. }
        | Typed::Relation { .. }
        | Typed::Within { .. } => false,
    }
}

/// A part of the range or list has another unit.
fn has_part_apart(left: &Typed, right: &Typed) -> bool
    ensures { result ≡ list_any (λ z. both_numbers (seen left.now) z && not (same_units (kind (seen left.now)) (kind z))) (parts_of (seen right.now)) }
{
    match right {
        Typed::Span { low, high, .. } => {
            differ_in_units(left, low.get()) || differ_in_units(left, high.get())
        }
        Typed::Listed { items, .. } => is_any_apart(left, items.as_slice()),
        Typed::Constant { .. }
        | Typed::Read { .. }
        | Typed::Whole { .. }
        | Typed::Minus { .. }
        | Typed::Not { .. }
        | Typed::Joined { .. }
        | Typed::Implies { .. }
        | Typed::Relation { .. }
        | Typed::Within { .. } => false,
    }
}

/// The relation with a part of the range or list is too wide.
fn has_part_wide(left: &Typed, right: &Typed) -> bool
    ensures { result ≡ list_any (λ z. is_wide (joined (size (seen left.now)) (size z))) (parts_of (seen right.now)) }
{
    match right {
        Typed::Span { low, high, .. } => {
            is_joined_wide(left, low.get()) || is_joined_wide(left, high.get())
        }
        Typed::Listed { items, .. } => is_any_wide(left, items.as_slice()),
        Typed::Constant { .. }
        | Typed::Read { .. }
        | Typed::Whole { .. }
        | Typed::Minus { .. }
        | Typed::Not { .. }
        | Typed::Joined { .. }
        | Typed::Implies { .. }
        | Typed::Relation { .. }
        | Typed::Within { .. } => false,
    }
}

/// What can stand on the right of `in`.
fn is_range_or_list(typed: &Typed) -> bool
    ensures { result ≡ range_or_list (seen typed.now) }
{
    match typed {
        Typed::Span { .. } | Typed::Listed { .. } => true,
        Typed::Constant { .. }
        | Typed::Read { .. }
        | Typed::Whole { .. }
        | Typed::Minus { .. }
        | Typed::Not { .. }
        | Typed::Joined { .. }
        | Typed::Implies { .. }
        | Typed::Relation { .. }
        | Typed::Within { .. } => false,
    }
}

fn is_no_range(part: &Option<Boxed<Typed>>) -> bool
    ensures { result ≡ of_one (seen_part part.now) (λ y. not (range_or_list y)) }
{
    match part {
        Some(typed) => !is_range_or_list(typed.get()),
        None => false,
    }
}

fn are_unfit(left: &Option<Boxed<Typed>>, right: &Option<Boxed<Typed>>) -> bool
    ensures { result ≡ of_two (seen_part left.now) (seen_part right.now) (λ x y. not (fits_in x y)) }
{
    match (left, right) {
        (Some(x), Some(y)) => !is_fit(x.get(), y.get()),
        (Some(_), None) | (None, _) => false,
    }
}

fn are_apart(left: &Option<Boxed<Typed>>, right: &Option<Boxed<Typed>>) -> bool
    ensures { result ≡ of_two (seen_part left.now) (seen_part right.now) (λ x y. list_any (λ z. both_numbers x z && not (same_units (kind x) (kind z))) (parts_of y)) }
{
    match (left, right) {
        (Some(x), Some(y)) => has_part_apart(x.get(), y.get()),
        (Some(_), None) | (None, _) => false,
    }
}

fn are_wide(left: &Option<Boxed<Typed>>, right: &Option<Boxed<Typed>>) -> bool
    ensures { result ≡ of_two (seen_part left.now) (seen_part right.now) (λ x y. list_any (λ z. is_wide (joined (size x) (size z))) (parts_of y)) }
{
    match (left, right) {
        (Some(x), Some(y)) => has_part_wide(x.get(), y.get()),
        (Some(_), None) | (None, _) => false,
    }
}

fn within_fault(
    place: Place,
    left: &Option<Boxed<Typed>>,
    right: &Option<Boxed<Typed>>,
) -> Option<Fault>
    ensures { result ≡ first_fault (within_rows place (seen_part left.now) (seen_part right.now)) }
{
    let clash = is_whole(left) || (is_no_range(right) || are_unfit(left, right));
    let clash = fault_if(place, FaultCode::Clash, clash);
    let units = fault_if(place, FaultCode::UnitClash, are_apart(left, right));
    let wide = fault_if(place, FaultCode::Wide, are_wide(left, right));
    least(least(clash, units), wide)
}

fn within_of(
    alloc: Global,
    left: Option<Boxed<Typed>>,
    right: Option<Boxed<Typed>>,
) -> Result<Option<Boxed<Typed>>, AllocError>
    ensures { IfOk result (λ t. seen_part t ≡ on_two (seen_part left) (seen_part right) (λ x y. Within (truth_info (place_of x)) x y)) }
{
    match left {
        Some(left) => match right {
            Some(right) => {
                let info = truth_at(left.get().info().place);
                Ok(Some(Boxed::new(alloc, Typed::Within { info, left, right })?))
            }
            None => Ok(None),
        },
        None => Ok(None),
    }
}

/// `in`.
pub(crate) fn within(
    alloc: Global,
    place: Place,
    left: Option<Boxed<Typed>>,
    right: Option<Boxed<Typed>>,
) -> Result<Checked, AllocError>
    ensures fault { IfOk result (λ c. c.fault ≡ first_fault (within_rows place (seen_part left) (seen_part right))) }
    ensures typed { IfOk result (λ c. seen_part c.typed ≡ within_typed place (seen_part left) (seen_part right)) }
{
    match within_fault(place, &left, &right) {
        None => Ok(Checked {
            fault: None,
            typed: within_of(alloc, left, right)?,
        }),
        Some(fault) => Ok(Checked {
            fault: Some(fault),
            typed: None,
        }),
    }
}
