//! Parts of an expression that some faults look at.

ghost use Rattle.std.specs.Prelude.{◌≡◌, map, option_map};
ghost use Rattle.dsl_tree.specs.Views.{expr_tree};
ghost use Rattle.program_uses.specs.ExprParts.{listed_items, left_in, seen_expr, seen_exprs};

use dsl_tree::Expr;

/// The left side of a relation.
pub(crate) fn relation_left(expr: &Expr) -> Option<&Expr>
    ensures { option_map seen_expr result ≡ left_in (expr_tree expr.now) }
{
    match expr {
        Expr::Relation { left, .. } => Some(left.get()),
        _ => None,
    }
}

/// The items of a list.
pub(crate) fn list_items(expr: &Expr) -> Option<&[Expr]>
    ensures { option_map seen_exprs result ≡ listed_items (expr_tree expr.now) }
{
    match expr {
        Expr::Listed { items, .. } => Some(items.as_slice()),
        _ => None,
    }
}
