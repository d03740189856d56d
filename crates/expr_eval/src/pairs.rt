//! Nodes of two parts that are known.

ghost use Rattle.std.specs.Prelude.{◌≡◌, true, IfOk};
ghost use Rattle.dsl_tree.specs.ExprTree.{ExprTree};
ghost use Rattle.expr_typing.specs.type_heads.Table.{Table};
ghost use Rattle.expr_nodes.specs.Scope.{Scope};
ghost use Rattle.expr_nodes.specs.Checks.{IsChecked};
ghost use Rattle.expr_nodes.specs.Seen.{seen_part};
ghost use Rattle.expr_eval.specs.DivisorValues.{sound_part};
ghost use Rattle.expr_eval.specs.NodePairs.{row_node, pair_node};

use crate::quotients::factored;
use dsl_tree::{Operator, RelationSign};
use expr_nodes::Checked;
use expr_operators::steps::{
    conjoined, disjoined, implied, range_called, related, spanned, summed,
};
use osc_base::Place;
use std::alloc::{AllocError, Global};

/// The level of the operators of a row.
#[derive(Clone, Copy)]
pub(crate) enum Level {
    Or,
    And,
    Sum,
    Product,
}

/// What stands between two parts.
#[derive(Clone, Copy)]
pub(crate) enum Pair {
    Implies,
    Relation(RelationSign),
    Span,
    RangeCall,
    Row(Level, Operator),
}

/// A row up to a part, of the row before it and the part.
fn in_row(
    alloc: Global,
    level: Level,
    operator: Operator,
    place: Place,
    left: Checked,
    right: Checked,
) -> Result<Checked, AllocError>
    requires { sound_part (seen_part right.typed) ≡ true }
    ensures { IfOk result (λ c. (table : Table) (sc : Scope) (a b : ExprTree) → IsChecked table sc a left → IsChecked table sc b right → IsChecked table sc (row_node level place operator a b) c) }
{
    match level {
        Level::Or => disjoined(alloc, place, operator, left, right),
        Level::And => conjoined(alloc, place, operator, left, right),
        Level::Sum => summed(alloc, place, operator, left, right),
        Level::Product => factored(alloc, place, operator, left, right),
    }
}

/// A node of two parts that are known.
pub(crate) fn paired(
    alloc: Global,
    pair: Pair,
    place: Place,
    left: Checked,
    right: Checked,
) -> Result<Checked, AllocError>
    requires { sound_part (seen_part right.typed) ≡ true }
    ensures { IfOk result (λ c. (table : Table) (sc : Scope) (a b : ExprTree) → IsChecked table sc a left → IsChecked table sc b right → IsChecked table sc (pair_node pair place a b) c) }
{
    match pair {
        Pair::Implies => implied(alloc, place, left, right),
        Pair::Relation(sign) => related(alloc, place, sign, left, right),
        Pair::Span => spanned(alloc, place, left, right),
        Pair::RangeCall => range_called(alloc, place, left, right),
        Pair::Row(level, operator) => in_row(alloc, level, operator, place, left, right),
    }
}
