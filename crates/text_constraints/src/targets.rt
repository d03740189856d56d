//! What a constraint is about: the field or duration to which a path leads.

ghost use Rattle.std.specs.Prelude.{◌≡◌, option_and_then, option_copied, option_map, IfOk};
ghost use Rattle.dsl_tree.specs.Views.{expr_tree, path_tree};
ghost use Rattle.program_texts.specs.composition.Givens.{read_at as read_in};
ghost use Rattle.expr_nodes.specs.Seen.{seen, seen_part};
ghost use Rattle.text_constraints.specs.Sites.{left_home, left_in, path_home, seen_expr, seen_site, whole_home};
ghost use Rattle.scene_places.specs.Placed.{place_in};

use dsl_tree::{Expr, PathNode};
use expr_eval::{checked, path_checked};
use expr_nodes::{Scope, Typed, Types};
use osc_base::{Boxed, Path};
use program_texts::is_path;
use scene_places::Places;
use std::alloc::{AllocError, Global};

/// Where a text stands: the homes of its paths, and the scope of its names.
#[derive(Clone, Copy)]
pub struct TextSite<'a, 's, 'l> {
    pub places: Places<'a>,
    pub scope: &'s Scope<'l>,
}

/// The path that is read, if the expression is one read.
pub fn read_of(typed: &Typed) -> Option<&Path>
    ensures { option_copied result ≡ read_in (seen typed.now) }
{
    match typed {
        Typed::Read { path, .. } => Some(path),
        Typed::Constant { .. }
        | Typed::Whole { .. }
        | Typed::Listed { .. }
        | Typed::Span { .. }
        | Typed::Minus { .. }
        | Typed::Not { .. }
        | Typed::Joined { .. }
        | Typed::Implies { .. }
        | Typed::Relation { .. }
        | Typed::Within { .. } => None,
    }
}

/// The path that is read, if there is an expression that is one read.
pub fn read_at(typed: &Option<Boxed<Typed>>) -> Option<&Path>
    ensures { option_copied result ≡ option_and_then read_in (seen_part typed.now) }
{
    match typed {
        Some(typed) => read_of(typed.get()),
        None => None,
    }
}

/// The home of what is read, if the expression is one read.
pub(crate) fn read_home(
    alloc: Global,
    places: &Places<'_>,
    typed: &Option<Boxed<Typed>>,
) -> Result<Option<Path>, AllocError>
    ensures { IfOk result (λ p. p ≡ option_map (place_in places.now) (option_and_then read_in (seen_part typed.now))) }
{
    match read_at(typed) {
        Some(path) => Ok(Some(places.place(alloc, path)?)),
        None => Ok(None),
    }
}

/// The home of the field or duration to which a path leads.
fn expr_home(
    alloc: Global,
    types: &Types,
    text: &TextSite<'_, '_, '_>,
    expr: &Expr,
) -> Result<Option<Path>, AllocError>
    ensures { IfOk result (λ p. p ≡ path_home types.now.table (seen_site text.now) (expr_tree expr.now)) }
{
    if !is_path(expr) {
        return Ok(None);
    }
    let known = checked(alloc, types, text.scope, expr)?;
    read_home(alloc, &text.places, &known.typed)
}

/// What stands on the left of a relation.
fn left_of(expr: &Expr) -> Option<&Expr>
    ensures { option_map seen_expr result ≡ left_in (expr_tree expr.now) }
{
    match expr {
        Expr::Relation { left, .. } => Some(left.get()),
        _ => None,
    }
}

/// The home of what a relation is about.
pub(crate) fn relation_home(
    alloc: Global,
    types: &Types,
    text: &TextSite<'_, '_, '_>,
    expr: &Expr,
) -> Result<Option<Path>, AllocError>
    ensures { IfOk result (λ p. p ≡ left_home types.now.table (seen_site text.now) (expr_tree expr.now)) }
{
    match left_of(expr) {
        Some(left) => expr_home(alloc, types, text, left),
        None => Ok(None),
    }
}

/// The home of what a default is about: without a relation, the field that is the whole of it.
pub(crate) fn default_home(
    alloc: Global,
    types: &Types,
    text: &TextSite<'_, '_, '_>,
    expr: &Expr,
) -> Result<Option<Path>, AllocError>
    ensures { IfOk result (λ p. p ≡ whole_home types.now.table (seen_site text.now) (expr_tree expr.now)) }
{
    match relation_home(alloc, types, text, expr)? {
        Some(path) => Ok(Some(path)),
        None => expr_home(alloc, types, text, expr),
    }
}

/// The home of the field whose defaults are removed.
pub(crate) fn removed_home(
    alloc: Global,
    types: &Types,
    text: &TextSite<'_, '_, '_>,
    path: &PathNode,
) -> Result<Option<Path>, AllocError>
    ensures { IfOk result (λ p. p ≡ path_home types.now.table (seen_site text.now) (path_tree path.now)) }
{
    let known = path_checked(alloc, types, text.scope, path)?;
    read_home(alloc, &text.places, &known.typed)
}
