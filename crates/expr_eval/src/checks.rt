//! The walk over an expression.

ghost use Rattle.std.specs.Prelude.{◌≡◌, ◌∷◌, [], map, IfOk};
ghost use Rattle.dsl_tree.specs.ExprTree.{ExprTree};
ghost use Rattle.dsl_tree.specs.Views as Views;
ghost use Rattle.dsl_tree.specs.Views.{expr_tree, further_tree, suffix_tree};
ghost use Rattle.expr_nodes.specs.Checks.{IsChecked};
ghost use Rattle.expr_eval.specs.Known.{IsWalked};
ghost use Rattle.expr_nodes.specs.SeenNames.{seen_scope};
ghost use Rattle.expr_eval.specs.ItemChecks.{AreChecked};
ghost use Rattle.expr_eval.specs.NodePairs.{row_node, pair_node};

use crate::items::{Items, listed, no_items, with_item};
use crate::leaves;
use crate::pairs::{Level, Pair, paired};
use dsl_tree::{Expr, Further, Suffix};
use expr_nodes::{Checked, Scope, Types};
use expr_operators::steps::{grouped, negated, opposed};
use expr_typing::steps::{indexed, pointed};
use osc_base::Place;
use std::alloc::{AllocError, Global};

/// What is known of an expression.
#[cycle(checks)]
fn walked(
    alloc: Global,
    types: &Types,
    scope: &Scope<'_>,
    expr: &Expr,
) -> Result<Checked, AllocError>
    ensures { IfOk result (λ c. IsWalked types.now.table (seen_scope scope.now) expr.now c) }
{
    match expr {
        Expr::Implies { place, left, right } => {
            let left = walked(alloc, types, scope, left.get())?;
            with_right(
                alloc,
                types,
                scope,
                right.get(),
                Pair::Implies,
                *place,
                left,
            )
        }
        Expr::Or { first, rest } => {
            let first = walked(alloc, types, scope, first.get())?;
            with_rest(alloc, types, scope, rest.as_slice(), Level::Or, first)
        }
        Expr::And { first, rest } => {
            let first = walked(alloc, types, scope, first.get())?;
            with_rest(alloc, types, scope, rest.as_slice(), Level::And, first)
        }
        Expr::Not { place, part } => {
            let part = walked(alloc, types, scope, part.get())?;
            negated(alloc, *place, part)
        }
        Expr::Relation {
            place,
            sign,
            left,
            right,
        } => {
            let left = walked(alloc, types, scope, left.get())?;
            let pair = Pair::Relation(*sign);
            with_right(alloc, types, scope, right.get(), pair, *place, left)
        }
        Expr::Sum { first, rest } => {
            let first = walked(alloc, types, scope, first.get())?;
            with_rest(alloc, types, scope, rest.as_slice(), Level::Sum, first)
        }
        Expr::Product { first, rest } => {
            let first = walked(alloc, types, scope, first.get())?;
            with_rest(alloc, types, scope, rest.as_slice(), Level::Product, first)
        }
        Expr::Minus { place, part } => {
            let part = walked(alloc, types, scope, part.get())?;
            opposed(alloc, *place, part)
        }
        Expr::Dot { head, suffixes } => {
            let head = walked(alloc, types, scope, head.get())?;
            with_suffixes(alloc, types, scope, suffixes.as_slice(), head)
        }
        Expr::Index { head, suffixes } => {
            let head = walked(alloc, types, scope, head.get())?;
            with_suffixes(alloc, types, scope, suffixes.as_slice(), head)
        }
        Expr::Number(digits) => leaves::number(alloc, digits),
        Expr::Physical { number, unit } => {
            leaves::physical_number(alloc, types, number, unit.as_str())
        }
        Expr::Chars { place, text } => leaves::text(alloc, types, *place, text.as_str()),
        Expr::Truth { place, value } => leaves::truth(alloc, *place, *value),
        Expr::It(place) => leaves::it(alloc, types, scope, *place),
        Expr::Actor(place) => leaves::actor(alloc, types, scope, *place),
        Expr::Name(name) => leaves::name(alloc, types, scope, name),
        Expr::EnumName { of, member } => leaves::enum_name(alloc, types, of, member),
        Expr::Group { place, inner } => {
            let inner = walked(alloc, types, scope, inner.get())?;
            grouped(alloc, *place, inner)
        }
        Expr::Span { place, low, high } => {
            let low = walked(alloc, types, scope, low.get())?;
            with_right(alloc, types, scope, high.get(), Pair::Span, *place, low)
        }
        Expr::Listed { place, items } => {
            let items = items_of(alloc, types, scope, items.as_slice())?;
            listed(alloc, *place, items)
        }
        Expr::RangeCall { place, low, high } => {
            let low = walked(alloc, types, scope, low.get())?;
            with_right(
                alloc,
                types,
                scope,
                high.get(),
                Pair::RangeCall,
                *place,
                low,
            )
        }
    }
}

/// A node of two parts, of which the left one is known.
#[cycle(checks)]
fn with_right(
    alloc: Global,
    types: &Types,
    scope: &Scope<'_>,
    right: &Expr,
    pair: Pair,
    place: Place,
    left: Checked,
) -> Result<Checked, AllocError>
    ensures { IfOk result (λ c. (a : ExprTree) → IsChecked types.now.table (seen_scope scope.now) a left → IsChecked types.now.table (seen_scope scope.now) (pair_node pair place a (expr_tree right.now)) c) }
{
    let right = walked(alloc, types, scope, right)?;
    paired(alloc, pair, place, left, right)
}

/// A row of parts, of which the first one is known.
#[cycle(checks)]
fn with_rest(
    alloc: Global,
    types: &Types,
    scope: &Scope<'_>,
    rest: &[Further],
    level: Level,
    first: Checked,
) -> Result<Checked, AllocError>
    ensures { IfOk result (λ c. (a : ExprTree) → IsChecked types.now.table (seen_scope scope.now) a first → IsChecked types.now.table (seen_scope scope.now) (Views.grouped (row_node level) a (map further_tree rest.now)) c) }
{
    let mut row = first;
    'rest: for next in rest {
        let pair = Pair::Row(level, next.operator);
        row = with_right(alloc, types, scope, &next.part, pair, next.place, row)?;
    }
    Ok(row)
}

/// An element of an expression that is known.
#[cycle(checks)]
fn at_index(
    alloc: Global,
    types: &Types,
    scope: &Scope<'_>,
    index: &Expr,
    place: Place,
    head: Checked,
) -> Result<Checked, AllocError>
    ensures { IfOk result (λ c. (a : ExprTree) → IsChecked types.now.table (seen_scope scope.now) a head → IsChecked types.now.table (seen_scope scope.now) (ExprTree.Index place a (expr_tree index.now)) c) }
{
    let known = walked(alloc, types, scope, index)?;
    indexed(alloc, place, head, index, known)
}

/// An expression that is known, with a name or an index after it.
#[cycle(checks)]
fn with_suffix(
    alloc: Global,
    types: &Types,
    scope: &Scope<'_>,
    suffix: &Suffix,
    head: Checked,
) -> Result<Checked, AllocError>
    ensures { IfOk result (λ c. (a : ExprTree) → IsChecked types.now.table (seen_scope scope.now) a head → IsChecked types.now.table (seen_scope scope.now) (Views.with_suffixes a (suffix_tree suffix.now ∷ [])) c) }
{
    match suffix {
        Suffix::Dot(name) => pointed(alloc, types, head, name),
        Suffix::Index { place, index } => at_index(alloc, types, scope, index, *place, head),
    }
}

/// An expression that is known, with names and indexes after it.
#[cycle(checks)]
fn with_suffixes(
    alloc: Global,
    types: &Types,
    scope: &Scope<'_>,
    suffixes: &[Suffix],
    head: Checked,
) -> Result<Checked, AllocError>
    ensures { IfOk result (λ c. (a : ExprTree) → IsChecked types.now.table (seen_scope scope.now) a head → IsChecked types.now.table (seen_scope scope.now) (Views.with_suffixes a (map suffix_tree suffixes.now)) c) }
{
    let mut path = head;
    'suffixes: for suffix in suffixes {
        path = with_suffix(alloc, types, scope, suffix, path)?;
    }
    Ok(path)
}

/// The items of a list.
#[cycle(checks)]
fn items_of(
    alloc: Global,
    types: &Types,
    scope: &Scope<'_>,
    items: &[Expr],
) -> Result<Items, AllocError>
    ensures { IfOk result (λ known. AreChecked types.now.table (seen_scope scope.now) (map expr_tree items.now) known) }
{
    let mut known = no_items(alloc);
    'items: for item in items {
        let item = walked(alloc, types, scope, item)?;
        known = with_item(known, item)?;
    }
    Ok(known)
}

/// The first fault of an expression, and its typed form, unless it or a part of it has a fault.
pub fn checked(
    alloc: Global,
    types: &Types,
    scope: &Scope<'_>,
    expr: &Expr,
) -> Result<Checked, AllocError>
    ensures { IfOk result (λ c. IsChecked types.now.table (seen_scope scope.now) (expr_tree expr.now) c) }
{
    walked(alloc, types, scope, expr)
}
