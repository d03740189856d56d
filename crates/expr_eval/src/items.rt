//! The items of a list.

ghost use Rattle.std.specs.Prelude.{◌≡◌, ◌∷◌, ◌++◌, [], List, map, option_map, IfOk};
ghost use Rattle.dsl_tree.specs.ExprTree.{ExprTree, row_of as tree_row};
ghost use Rattle.expr_typing.specs.type_heads.Table.{Table};
ghost use Rattle.expr_nodes.specs.Scope.{Scope};
ghost use Rattle.expr_nodes.specs.Typed.{row_of};
ghost use Rattle.expr_nodes.specs.Operators.{list_typed};
ghost use Rattle.expr_nodes.specs.Checks.{IsChecked};
ghost use Rattle.expr_nodes.specs.Seen.{seen, seen_part};
ghost use Rattle.expr_eval.specs.ItemChecks.{more_items, one_value as value_of, AreChecked};

use expr_nodes::{Checked, Typed};
use expr_operators::least;
use expr_operators::spans::part_fault;
use expr_typing::lists::list;
use osc_base::{Boxed, Fault, Place, Row};
use std::alloc::{AllocError, Global};

/// What is known of the items of a list: their first fault, and their typed forms, unless one has a fault or is no
/// value.
#[derive(Drop)]
pub(crate) struct Items {
    pub fault: Option<Fault>,
    pub typed: Option<Row<Typed>>,
}

/// No items.
pub(crate) fn no_items(alloc: Global) -> Items
    ensures { (table : Table) (sc : Scope) → AreChecked table sc [] result }
{
    Items {
        fault: None,
        typed: Some(Row::new(alloc)),
    }
}

/// The item, if it is one value.
fn one_value(item: Option<Boxed<Typed>>) -> Option<Boxed<Typed>>
    ensures { seen_part result ≡ value_of (seen_part item) }
{
    match item {
        Some(typed) => {
            if typed.get().is_scalar() {
                Some(typed)
            } else {
                None
            }
        }
        None => None,
    }
}

/// The items with one more.
fn pushed(items: Row<Typed>, item: Boxed<Typed>) -> Result<Row<Typed>, AllocError>
    ensures { IfOk result (λ ts. map seen ts ≡ map seen items ++ seen item ∷ []) }
{
    let mut items = items;
    items.push(item.into_inner())?;
    Ok(items)
}

/// The items with one more, if all are there.
fn typed_with(
    items: Option<Row<Typed>>,
    item: Option<Boxed<Typed>>,
) -> Result<Option<Row<Typed>>, AllocError>
    ensures { IfOk result (λ ts. option_map (map seen) ts ≡ more_items (option_map (map seen) items) (seen_part item)) }
{
    match items {
        Some(items) => match item {
            Some(item) => Ok(Some(pushed(items, item)?)),
            None => Ok(None),
        },
        None => Ok(None),
    }
}

/// What is known of the items with one more.
pub(crate) fn with_item(before: Items, item: Checked) -> Result<Items, AllocError>
    ensures { IfOk result (λ known. (table : Table) (sc : Scope) (es : List ExprTree) (e : ExprTree) → AreChecked table sc es before → IsChecked table sc e item → AreChecked table sc (es ++ e ∷ []) known) }
{
    let own = part_fault(&item.typed);
    let fault = least(least(before.fault, own), item.fault);
    let typed = typed_with(before.typed, one_value(item.typed))?;
    Ok(Items { fault, typed })
}

fn list_of(
    alloc: Global,
    place: Place,
    items: Option<Row<Typed>>,
) -> Result<Option<Boxed<Typed>>, AllocError>
    ensures { IfOk result (λ t. seen_part t ≡ list_typed place (option_map row_of (option_map (map seen) items))) }
{
    match items {
        Some(items) => Ok(Some(list(alloc, place, items)?)),
        None => Ok(None),
    }
}

/// A written list, whose items are known.
pub(crate) fn listed(alloc: Global, place: Place, items: Items) -> Result<Checked, AllocError>
    ensures { IfOk result (λ c. (table : Table) (sc : Scope) (es : List ExprTree) → AreChecked table sc es items → IsChecked table sc (ExprTree.Listed place (tree_row es)) c) }
{
    Ok(Checked {
        fault: items.fault,
        typed: list_of(alloc, place, items.typed)?,
    })
}
