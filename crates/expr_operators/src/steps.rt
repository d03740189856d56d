//! The operators of an expression, of parts that are known.

ghost use Rattle.std.specs.Prelude.{◌≡◌, IfOk};
ghost use Rattle.dsl_tree.specs.ExprTree.{ExprTree};
ghost use Rattle.expr_nodes.specs.type_heads.Table.{Table};
ghost use Rattle.expr_nodes.specs.Scope.{Scope};
ghost use Rattle.expr_nodes.specs.Checks.{IsChecked};

use crate::relations::relation;
use crate::spans::{group, span};
use crate::sums::{minus, sum};
use crate::truths::{implies, logic, not};
use dsl_tree::{Operator, RelationSign};
use expr_nodes::{Checked, Join, Place};
use std::alloc::{AllocError, Global};
use typed_parts::{with_part, with_parts};

/// `=>`, of parts that are known.
pub fn implied(
    alloc: Global,
    place: Place,
    left: Checked,
    right: Checked,
) -> Result<Checked, AllocError>
    ensures { IfOk result (λ c. (table : Table) (sc : Scope) (a b : ExprTree) → IsChecked table sc a left → IsChecked table sc b right → IsChecked table sc (ExprTree.Implies place a b) c) }
{
    let own = implies(alloc, place, left.typed, right.typed)?;
    Ok(with_parts(own, left.fault, right.fault))
}

/// `or`, of parts that are known.
pub fn disjoined(
    alloc: Global,
    place: Place,
    operator: Operator,
    left: Checked,
    right: Checked,
) -> Result<Checked, AllocError>
    ensures { IfOk result (λ c. (table : Table) (sc : Scope) (a b : ExprTree) → IsChecked table sc a left → IsChecked table sc b right → IsChecked table sc (ExprTree.Or place operator a b) c) }
{
    let own = logic(alloc, place, Join::Or, left.typed, right.typed)?;
    Ok(with_parts(own, left.fault, right.fault))
}

/// `and`, of parts that are known.
pub fn conjoined(
    alloc: Global,
    place: Place,
    operator: Operator,
    left: Checked,
    right: Checked,
) -> Result<Checked, AllocError>
    ensures { IfOk result (λ c. (table : Table) (sc : Scope) (a b : ExprTree) → IsChecked table sc a left → IsChecked table sc b right → IsChecked table sc (ExprTree.And place operator a b) c) }
{
    let own = logic(alloc, place, Join::And, left.typed, right.typed)?;
    Ok(with_parts(own, left.fault, right.fault))
}

/// A relation, of parts that are known.
pub fn related(
    alloc: Global,
    place: Place,
    sign: RelationSign,
    left: Checked,
    right: Checked,
) -> Result<Checked, AllocError>
    ensures { IfOk result (λ c. (table : Table) (sc : Scope) (a b : ExprTree) → IsChecked table sc a left → IsChecked table sc b right → IsChecked table sc (ExprTree.Relation place sign a b) c) }
{
    let own = relation(alloc, place, sign, left.typed, right.typed)?;
    Ok(with_parts(own, left.fault, right.fault))
}

/// A sum or difference, of parts that are known.
pub fn summed(
    alloc: Global,
    place: Place,
    operator: Operator,
    left: Checked,
    right: Checked,
) -> Result<Checked, AllocError>
    ensures { IfOk result (λ c. (table : Table) (sc : Scope) (a b : ExprTree) → IsChecked table sc a left → IsChecked table sc b right → IsChecked table sc (ExprTree.Sum place operator a b) c) }
{
    let own = sum(alloc, place, operator, left.typed, right.typed)?;
    Ok(with_parts(own, left.fault, right.fault))
}

/// A range, of parts that are known.
pub fn spanned(
    alloc: Global,
    place: Place,
    left: Checked,
    right: Checked,
) -> Result<Checked, AllocError>
    ensures { IfOk result (λ c. (table : Table) (sc : Scope) (a b : ExprTree) → IsChecked table sc a left → IsChecked table sc b right → IsChecked table sc (ExprTree.Span place a b) c) }
{
    let own = span(alloc, place, left.typed, right.typed)?;
    Ok(with_parts(own, left.fault, right.fault))
}

/// `not`, of a part that is known.
pub fn negated(alloc: Global, place: Place, part: Checked) -> Result<Checked, AllocError>
    ensures { IfOk result (λ c. (table : Table) (sc : Scope) (a : ExprTree) → IsChecked table sc a part → IsChecked table sc (ExprTree.Not place a) c) }
{
    let own = not(alloc, place, part.typed)?;
    Ok(with_part(own, part.fault))
}

/// A minus, of a part that is known.
pub fn opposed(alloc: Global, place: Place, part: Checked) -> Result<Checked, AllocError>
    ensures { IfOk result (λ c. (table : Table) (sc : Scope) (a : ExprTree) → IsChecked table sc a part → IsChecked table sc (ExprTree.Minus place a) c) }
{
    let own = minus(alloc, place, part.typed)?;
    Ok(with_part(own, part.fault))
}

/// An expression in brackets, whose inner one is known.
pub fn grouped(alloc: Global, place: Place, part: Checked) -> Result<Checked, AllocError>
    ensures { IfOk result (λ c. (table : Table) (sc : Scope) (a : ExprTree) → IsChecked table sc a part → IsChecked table sc (ExprTree.Group place a) c) }
{
    Ok(Checked {
        fault: part.fault,
        typed: group(alloc, place, part.typed)?,
    })
}

/// A range that is written as a call, of parts that are known.
pub fn range_called(
    alloc: Global,
    place: Place,
    left: Checked,
    right: Checked,
) -> Result<Checked, AllocError>
    ensures { IfOk result (λ c. (table : Table) (sc : Scope) (a b : ExprTree) → IsChecked table sc a left → IsChecked table sc b right → IsChecked table sc (ExprTree.RangeCall place a b) c) }
{
    let own = span(alloc, place, left.typed, right.typed)?;
    Ok(with_parts(own, left.fault, right.fault))
}
