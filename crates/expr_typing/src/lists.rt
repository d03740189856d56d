//! The faults and the typed form of written lists and of elements of lists.

ghost use Rattle.std.specs.Prelude.{◌≡◌, Some, false, is_none, map, option_copied, option_map, option_and_then, slice_get, IfOk};
ghost use Rattle.std.specs.Option.{option_map_or};
ghost use Rattle.dsl_tree.specs.osc_base.FaultRows.{first_fault};
ghost use Rattle.dsl_tree.specs.Views.{expr_tree};
ghost use Rattle.expr_nodes.specs.Typed.{row_of, place_of, begun_at};
ghost use Rattle.expr_nodes.specs.Parts.{of_one};
ghost use Rattle.expr_nodes.specs.Operators.{row_kind as kind_of_row, list_typed, index_of as number_in, element as element_in, index_rows, index_typed};
ghost use Rattle.expr_nodes.specs.Seen.{seen, seen_kind, seen_part};

use crate::held::listed;
use dsl_tree::Expr;
use dsl_tree::osc_base::FaultCode;
use expr_nodes::{Boxed, Checked, Fault, Info, Place, Row, Size, Typed, ValueKind};
use std::alloc::{AllocError, Global};
use typed_parts::{NO_EXPONENTS, begun, fault_if, least};

/// The kind of a list is that of its first item.
fn row_kind(items: &[Typed]) -> ValueKind
    ensures { seen_kind result ≡ kind_of_row (row_of (map seen items.now)) }
{
    match items {
        [first, ..] => first.info().kind,
        [] => ValueKind::Number(NO_EXPONENTS),
    }
}

/// A written list.
pub fn list(alloc: Global, place: Place, items: Row<Typed>) -> Result<Boxed<Typed>, AllocError>
    ensures { IfOk result (λ t. Some (seen t) ≡ list_typed place (Some (row_of (map seen items)))) }
{
    let info = Info {
        place,
        kind: row_kind(items.as_slice()),
        size: Size::unit(),
    };
    listed(alloc, info, false, items)
}

/// The number in brackets after a list, if it is a whole number literal.
fn index_of(index: &Expr) -> Option<u64>
    ensures { result ≡ number_in (expr_tree index.now) }
{
    match index {
        Expr::Number(number) => {
            if number.places == 0 {
                Some(number.digits)
            } else {
                None
            }
        }
        _ => None,
    }
}

/// The item of that number.
fn item_of(items: &[Typed], number: u64) -> Option<&Typed>
    ensures { option_copied result ≡ slice_get items.now number }
{
    items.get(number as usize)
}

/// The element of a list field.
fn element_of(head: &Typed, number: u64) -> Option<&Typed>
    ensures { option_map seen (option_copied result) ≡ element_in number (seen head.now) }
{
    match head {
        Typed::Listed {
            is_field,
            items,
            ..
        } => {
            if *is_field {
                item_of(items.as_slice(), number)
            } else {
                None
            }
        }
        Typed::Constant { .. }
        | Typed::Read { .. }
        | Typed::Whole { .. }
        | Typed::Span { .. }
        | Typed::Minus { .. }
        | Typed::Not { .. }
        | Typed::Joined { .. }
        | Typed::Implies { .. }
        | Typed::Relation { .. }
        | Typed::Within { .. } => None,
    }
}

/// The list hasn't the element.
fn lacks(head: &Option<Boxed<Typed>>, number: u64) -> bool
    ensures { result ≡ of_one (seen_part head.now) (λ h. is_none (element_in number h)) }
{
    match head {
        Some(head) => element_of(head.get(), number).is_none(),
        None => false,
    }
}

/// There is a number, and the list hasn't the element.
fn is_missing(head: &Option<Boxed<Typed>>, number: Option<u64>) -> bool
    ensures { result ≡ option_map_or (λ n. of_one (seen_part head.now) (λ h. is_none (element_in n h))) number false }
{
    match number {
        Some(number) => lacks(head, number),
        None => false,
    }
}

fn index_fault(place: Place, head: &Option<Boxed<Typed>>, index: &Expr) -> Option<Fault>
    ensures { result ≡ first_fault (index_rows place (seen_part head.now) (expr_tree index.now)) }
{
    let number = index_of(index);
    let varying = fault_if(place, FaultCode::NotConstant, number.is_none());
    let lacking = fault_if(place, FaultCode::Index, is_missing(head, number));
    least(varying, lacking)
}

/// The element, said to begin where the list does.
fn element_at(alloc: Global, head: &Typed, number: u64) -> Result<Option<Boxed<Typed>>, AllocError>
    ensures { IfOk result (λ t. seen_part t ≡ option_map (begun_at (place_of (seen head.now))) (element_in number (seen head.now))) }
{
    match element_of(head, number) {
        Some(element) => {
            let element = begun(head.info().place, element.copy(alloc)?);
            Ok(Some(Boxed::new(alloc, element)?))
        }
        None => Ok(None),
    }
}

fn index_of_head(
    alloc: Global,
    head: Option<Boxed<Typed>>,
    number: u64,
) -> Result<Option<Boxed<Typed>>, AllocError>
    ensures { IfOk result (λ t. seen_part t ≡ option_and_then (λ h. option_map (begun_at (place_of h)) (element_in number h)) (seen_part head)) }
{
    match head {
        Some(head) => element_at(alloc, head.get(), number),
        None => Ok(None),
    }
}

fn index_of_part(
    alloc: Global,
    head: Option<Boxed<Typed>>,
    index: &Expr,
) -> Result<Option<Boxed<Typed>>, AllocError>
    ensures { IfOk result (λ t. seen_part t ≡ index_typed (seen_part head) (expr_tree index.now)) }
{
    match index_of(index) {
        Some(number) => index_of_head(alloc, head, number),
        None => Ok(None),
    }
}

/// An element of a list.
pub(crate) fn index(
    alloc: Global,
    place: Place,
    head: Option<Boxed<Typed>>,
    index: &Expr,
) -> Result<Checked, AllocError>
    ensures fault { IfOk result (λ c. c.fault ≡ first_fault (index_rows place (seen_part head) (expr_tree index.now))) }
    ensures typed { IfOk result (λ c. seen_part c.typed ≡ index_typed (seen_part head) (expr_tree index.now)) }
{
    let fault = index_fault(place, &head, index);
    Ok(Checked {
        fault,
        typed: index_of_part(alloc, head, index)?,
    })
}
