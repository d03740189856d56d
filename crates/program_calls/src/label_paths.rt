//! Paths that begin with a label.

ghost use Rattle.std.specs.Prelude.{◌≡◌};
ghost use Rattle.dsl_tree.specs.Views.{expr_tree};
ghost use Rattle.expr_nodes.specs.Names.{is_label as of_label};
ghost use Rattle.expr_nodes.specs.SeenNames.{seen_scope};
ghost use Rattle.composition.specs.Uses.{begins_with_label as begins_so};
ghost use Rattle.program_calls.specs.SeenCallees.{head_tree};

use crate::name_exprs::head_name;
use dsl_tree::{Expr, InvokeHead};
use expr_nodes::{Scope, Types};
use expr_typing::has_label;

/// Whether a name is that of a label, and of no field.
fn is_label(types: &Types, scope: &Scope<'_>, name: &str) -> bool
    ensures { result ≡ of_label types.now.table (seen_scope scope.now) name.now }
{
    types.field(scope.holder, name).is_none() && has_label(scope, name)
}

/// Whether an expression is a path that begins with a label.
pub fn begins_with_label(types: &Types, scope: &Scope<'_>, expr: &Expr) -> bool
    ensures { result ≡ begins_so types.now.table (seen_scope scope.now) (expr_tree expr.now) }
{
    match head_name(expr) {
        Some(name) => is_label(types, scope, name.text.as_str()),
        None => false,
    }
}

/// Whether the path to an actor begins with a label.
pub fn begins_with_label_at(types: &Types, scope: &Scope<'_>, head: &InvokeHead) -> bool
    ensures { result ≡ begins_so types.now.table (seen_scope scope.now) (head_tree head.now) }
{
    match head {
        InvokeHead::Name(name) => is_label(types, scope, name.text.as_str()),
        InvokeHead::Actor(_) => false,
    }
}
