//! The faults of constraints, and of paths whose defaults are removed.

ghost use Rattle.std.specs.Prelude.{◌≡◌, ◌++◌, ◌∷◌, [], flat_map, map, not, IfOk};
ghost use Rattle.osc_base.specs.FaultRows.{first_from};
ghost use Rattle.dsl_tree.specs.ExprTree.{ExprTree};
ghost use Rattle.dsl_tree.specs.Views.{expr_tree, path_tree, rule_tree};
ghost use Rattle.expr_nodes.specs.type_heads.Table.{Table};
ghost use Rattle.expr_nodes.specs.Checks.{IsChecked};
ghost use Rattle.expr_nodes.specs.Fits as Fits;
ghost use Rattle.expr_nodes.specs.Kinds.{is_truth};
ghost use Rattle.expr_nodes.specs.Parts.{of_one};
ghost use Rattle.expr_nodes.specs.Scope.{Scope as ScopeOf};
ghost use Rattle.expr_nodes.specs.Seen.{seen_part};
ghost use Rattle.expr_nodes.specs.SeenNames.{seen_scope};
ghost use Rattle.expr_nodes.specs.Typing.{expr_rows, first as first_in, typed};
ghost use Rattle.program_calls.specs.composition.Uses.{default_rows, has_no_target as lacks_target, is_read_truth, isnt_path_to, rule_rows};
ghost use Rattle.program_uses.specs.RuleRows.{keep_rows, remove_rows};

use crate::expr_parts::relation_left;
use dsl_tree::{Expr, KeepKind, PathNode, RuleDecl};
use expr_eval::{Checked, checked, least, path_checked, path_place};
use expr_nodes::{Scope, Typed, Types};
use name_scope::with_fault;
use osc_base::{Boxed, Fault, FaultCode};
use program_calls::{first_place, is_path};
use std::alloc::{AllocError, Global};
use value_fits::with_constraint;

/// Faults of an expression that is known.
pub(crate) fn with_known(first: Option<Fault>, known: &Checked) -> Option<Fault>
    ensures { (table : Table) (sc : ScopeOf) (e : ExprTree) → IsChecked table sc e known.now → result ≡ first_from first (expr_rows table sc e) }
{
    least(first, known.fault)
}

/// Faults of an expression.
pub(crate) fn with_expr(
    alloc: Global,
    types: &Types,
    scope: &Scope<'_>,
    first: Option<Fault>,
    expr: &Expr,
) -> Result<Option<Fault>, AllocError>
    ensures { IfOk result (λ f. f ≡ first_from first (expr_rows types.now.table (seen_scope scope.now) (expr_tree expr.now))) }
{
    let known = checked(alloc, types, scope, expr)?;
    Ok(with_known(first, &known))
}

/// Whether a part is something else than a value that is read.
fn is_no_read(typed: &Option<Boxed<Typed>>) -> bool
    ensures { result ≡ of_one (seen_part typed.now) (λ t. not (Fits.is_read t)) }
{
    match typed {
        Some(typed) => !typed.get().is_read(),
        None => false,
    }
}

/// Whether a part is something else than a truth value that is read.
fn is_no_read_truth(typed: &Option<Boxed<Typed>>) -> bool
    ensures { result ≡ of_one (seen_part typed.now) (λ t. not (is_read_truth t)) }
{
    match typed {
        Some(typed) => {
            let typed = typed.get();
            !(typed.is_read() && typed.info().kind.is_truth())
        }
        None => false,
    }
}

/// Whether an expression isn't the path of a value.
fn isnt_value_path(
    alloc: Global,
    types: &Types,
    scope: &Scope<'_>,
    expr: &Expr,
) -> Result<bool, AllocError>
    ensures { IfOk result (λ b. b ≡ isnt_path_to types.now.table (seen_scope scope.now) Fits.is_read (expr_tree expr.now)) }
{
    let known = checked(alloc, types, scope, expr)?;
    Ok(!is_path(expr) || is_no_read(&known.typed))
}

/// Whether an expression isn't the path of a truth value.
fn isnt_truth_path(
    alloc: Global,
    types: &Types,
    scope: &Scope<'_>,
    expr: &Expr,
) -> Result<bool, AllocError>
    ensures { IfOk result (λ b. b ≡ isnt_path_to types.now.table (seen_scope scope.now) is_read_truth (expr_tree expr.now)) }
{
    let known = checked(alloc, types, scope, expr)?;
    Ok(!is_path(expr) || is_no_read_truth(&known.typed))
}

/// Whether an expression is neither a relation with a value's path on its left, nor the path of a truth value.
fn has_no_target(
    alloc: Global,
    types: &Types,
    scope: &Scope<'_>,
    expr: &Expr,
) -> Result<bool, AllocError>
    ensures { IfOk result (λ b. b ≡ lacks_target types.now.table (seen_scope scope.now) (expr_tree expr.now)) }
{
    match relation_left(expr) {
        Some(left) => isnt_value_path(alloc, types, scope, left),
        None => isnt_truth_path(alloc, types, scope, expr),
    }
}

/// A fault of a default without a target.
fn with_default(
    alloc: Global,
    types: &Types,
    scope: &Scope<'_>,
    first: Option<Fault>,
    kind: KeepKind,
    expr: &Expr,
) -> Result<Option<Fault>, AllocError>
    ensures { IfOk result (λ f. f ≡ first_from first (default_rows types.now.table (seen_scope scope.now) kind (expr_tree expr.now))) }
{
    match kind {
        KeepKind::Default => {
            let is_wrong = has_no_target(alloc, types, scope, expr)?;
            let place = first_place(expr);
            Ok(with_fault(first, place, FaultCode::WrongKind, is_wrong))
        }
        KeepKind::Plain | KeepKind::Hard => Ok(first),
    }
}

/// Faults of a constraint.
fn with_keep(
    alloc: Global,
    types: &Types,
    scope: &Scope<'_>,
    first: Option<Fault>,
    kind: KeepKind,
    expr: &Expr,
) -> Result<Option<Fault>, AllocError>
    ensures { IfOk result (λ f. f ≡ first_from first (keep_rows types.now.table (seen_scope scope.now) kind (expr_tree expr.now))) }
{
    let known = checked(alloc, types, scope, expr)?;
    let own = with_known(first, &known);
    let fitted = with_constraint(own, first_place(expr), &known.typed);
    with_default(alloc, types, scope, fitted, kind, expr)
}

/// Faults of a path whose defaults are removed.
fn with_removal(
    alloc: Global,
    types: &Types,
    scope: &Scope<'_>,
    first: Option<Fault>,
    path: &PathNode,
) -> Result<Option<Fault>, AllocError>
    ensures { IfOk result (λ f. f ≡ first_from first (remove_rows types.now.table (seen_scope scope.now) (path_tree path.now))) }
{
    let known = path_checked(alloc, types, scope, path)?;
    let is_wrong = is_no_read(&known.typed);
    let own = with_fault(first, path_place(path), FaultCode::WrongKind, is_wrong);
    Ok(with_known(own, &known))
}

/// Faults of a rule.
pub(crate) fn with_rule(
    alloc: Global,
    types: &Types,
    scope: &Scope<'_>,
    first: Option<Fault>,
    rule: &RuleDecl,
) -> Result<Option<Fault>, AllocError>
    ensures { IfOk result (λ f. f ≡ first_from first (rule_rows types.now.table (seen_scope scope.now) (rule_tree rule.now))) }
{
    match rule {
        RuleDecl::Keep { kind, expr, .. } => with_keep(alloc, types, scope, first, *kind, expr),
        RuleDecl::Remove { path, .. } => with_removal(alloc, types, scope, first, path),
    }
}

/// Faults of rules.
pub(crate) fn with_rules(
    alloc: Global,
    types: &Types,
    scope: &Scope<'_>,
    first: Option<Fault>,
    rules: &[RuleDecl],
) -> Result<Option<Fault>, AllocError>
    ensures { IfOk result (λ f. f ≡ first_from first (flat_map (rule_rows types.now.table (seen_scope scope.now)) (map rule_tree rules.now))) }
{
    let mut fault = first;
    for rule in rules {
        fault = with_rule(alloc, types, scope, fault, rule)?;
    }
    Ok(fault)
}
