//! Names after points and elements of lists, of parts that are known.

ghost use Rattle.std.specs.Prelude.{◌≡◌, IfOk};
ghost use Rattle.dsl_tree.specs.ExprTree.{ExprTree};
ghost use Rattle.dsl_tree.specs.Views.{expr_tree};
ghost use Rattle.expr_nodes.specs.type_heads.Table.{Table};
ghost use Rattle.expr_nodes.specs.Scope.{Scope};
ghost use Rattle.expr_nodes.specs.Checks.{IsChecked};

use crate::dots::dot;
use crate::lists::index;
use dsl_tree::{Expr, Ident};
use expr_nodes::{Checked, Place, Types};
use std::alloc::{AllocError, Global};
use typed_parts::{with_part, with_parts};

/// A name after the point of an expression that is known.
pub fn pointed(
    alloc: Global,
    types: &Types,
    head: Checked,
    name: &Ident,
) -> Result<Checked, AllocError>
    ensures { IfOk result (λ c. (sc : Scope) (a : ExprTree) → IsChecked types.now.table sc a head → IsChecked types.now.table sc (ExprTree.Dot a name.now) c) }
{
    let own = dot(alloc, types, head.typed, name)?;
    Ok(with_part(own, head.fault))
}

/// An element of an expression that is known. The index is known too.
pub fn indexed(
    alloc: Global,
    place: Place,
    head: Checked,
    number: &Expr,
    known: Checked,
) -> Result<Checked, AllocError>
    ensures { IfOk result (λ c. (table : Table) (sc : Scope) (a : ExprTree) → IsChecked table sc a head → IsChecked table sc (expr_tree number.now) known → IsChecked table sc (ExprTree.Index place a (expr_tree number.now)) c) }
{
    let own = index(alloc, place, head.typed, number)?;
    Ok(with_parts(own, head.fault, known.fault))
}
