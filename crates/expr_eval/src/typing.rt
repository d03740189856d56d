//! The typed form of an expression without a fault.

ghost use Rattle.std.specs.Prelude.{◌≡◌, true, Some, None, is_some};
ghost use Rattle.dsl_tree.specs.ExprTree.{ExprTree};
ghost use Rattle.dsl_tree.specs.Views.{expr_tree};
ghost use Rattle.expr_typing.specs.type_heads.Table.{Table};
ghost use Rattle.expr_nodes.specs.Checks.{IsChecked};
ghost use Rattle.expr_nodes.specs.Scope.{Scope as Names};
ghost use Rattle.expr_nodes.specs.Seen.{seen, seen_part};
ghost use Rattle.expr_nodes.specs.SeenNames.{seen_scope};
ghost use Rattle.expr_eval.specs.Resolved.{IsResolved};
ghost use Rattle.expr_eval.specs.TypeAnswers.{IsTyped};

use crate::checks::checked;
use dsl_tree::Expr;
use expr_nodes::{Checked, Scope, Typed, Types};
use osc_base::{Boxed, Fault, Stop};
use std::alloc::Global;

/// Why an expression has no typed form: its first fault, or out of memory.
pub type TypeStop = Stop<Fault>;

/// The typed form of an expression without a fault. It is there.
fn taken(typed: Option<Boxed<Typed>>) -> Typed
    requires { is_some (seen_part typed) ≡ true }
    ensures { seen_part typed ≡ Some (seen result) }
{
    match typed {
        Some(typed) => typed.into_inner(),
        None => unreachable!("an expression without a fault has a typed form"),
    }
}

/// The first fault of what is known, or its typed form.
fn settled(known: Checked) -> Result<Typed, TypeStop>
    requires { known.fault ≡ None → is_some (seen_part known.typed) ≡ true }
    ensures { (table : Table) (sc : Names) (e : ExprTree) → IsChecked table sc e known → IsTyped table sc e result }
{
    match known.fault {
        Some(fault) => Err(Stop::At(fault)),
        None => Ok(taken(known.typed)),
    }
}

/// The typed form of an expression, which is sound. `At` comes exactly if it has a fault, with the first one.
///
/// It asks for a table and a scope that leave nothing open: it is known what each label and `it` stand for, and each
/// physical type and unit has exponents. So do the scopes of a program whose names, types, members and uses have no
/// fault. `checked` asks for nothing.
pub fn type_of(
    alloc: Global,
    types: &Types,
    scope: &Scope<'_>,
    expr: &Expr,
) -> Result<Typed, TypeStop>
    requires { IsResolved types.now.table (seen_scope scope.now) }
    ensures { IsTyped types.now.table (seen_scope scope.now) (expr_tree expr.now) result }
{
    let known = checked(alloc, types, scope, expr)?;
    settled(known)
}
