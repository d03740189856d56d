//! Paths that are written where no other expression may stand.

ghost use Rattle.std.specs.Prelude.{◌≡◌, ◌∷◌, [], map, IfOk};
ghost use Rattle.dsl_tree.specs.ExprTree.{ExprTree};
ghost use Rattle.dsl_tree.specs.Views as Views;
ghost use Rattle.dsl_tree.specs.Views.{head_tree, path_tree, suffix_tree};
ghost use Rattle.expr_nodes.specs.Checks.{IsChecked};
ghost use Rattle.expr_nodes.specs.SeenNames.{seen_scope};
ghost use Rattle.expr_nodes.specs.Typing.{first as first_in};

use crate::checks::checked;
use dsl_tree::{PathHead, PathNode, Suffix};
use expr_nodes::{Checked, Scope, Types};
use expr_typing::meanings::name;
use expr_typing::others::{actor, it};
use expr_typing::steps::{indexed, pointed};
use osc_base::Place;
use std::alloc::{AllocError, Global};

/// What a path begins with, as an expression.
fn head_checked(
    alloc: Global,
    types: &Types,
    scope: &Scope<'_>,
    head: &PathHead,
) -> Result<Checked, AllocError>
    ensures { IfOk result (λ c. IsChecked types.now.table (seen_scope scope.now) (head_tree head.now) c) }
{
    match head {
        PathHead::Name(first) => name(alloc, types, scope, first),
        PathHead::It(place) => it(alloc, types, scope, *place),
        PathHead::Actor(place) => actor(alloc, types, scope, *place),
    }
}

/// An expression that is known, with a name or an index after it.
fn with_suffix(
    alloc: Global,
    types: &Types,
    scope: &Scope<'_>,
    suffix: &Suffix,
    head: Checked,
) -> Result<Checked, AllocError>
    ensures { IfOk result (λ c. (a : ExprTree) → IsChecked types.now.table (seen_scope scope.now) a head → IsChecked types.now.table (seen_scope scope.now) (Views.with_suffixes a (suffix_tree suffix.now ∷ [])) c) }
{
    match suffix {
        Suffix::Dot(name) => pointed(alloc, types, head, name),
        Suffix::Index { place, index } => {
            let known = checked(alloc, types, scope, index)?;
            indexed(alloc, *place, head, index, known)
        }
    }
}

/// An expression that is known, with names and indexes after it.
fn with_suffixes(
    alloc: Global,
    types: &Types,
    scope: &Scope<'_>,
    suffixes: &[Suffix],
    head: Checked,
) -> Result<Checked, AllocError>
    ensures { IfOk result (λ c. (a : ExprTree) → IsChecked types.now.table (seen_scope scope.now) a head → IsChecked types.now.table (seen_scope scope.now) (Views.with_suffixes a (map suffix_tree suffixes.now)) c) }
{
    let mut path = head;
    for suffix in suffixes {
        path = with_suffix(alloc, types, scope, suffix, path)?;
    }
    Ok(path)
}

/// The first fault of a path, and its typed form, unless it or a part of it has a fault.
pub fn path_checked(
    alloc: Global,
    types: &Types,
    scope: &Scope<'_>,
    path: &PathNode,
) -> Result<Checked, AllocError>
    ensures { IfOk result (λ c. IsChecked types.now.table (seen_scope scope.now) (path_tree path.now) c) }
{
    let head = head_checked(alloc, types, scope, &path.head)?;
    with_suffixes(alloc, types, scope, path.suffixes.as_slice(), head)
}

/// The place of the first token of a path.
pub fn path_place(path: &PathNode) -> Place
    ensures { result ≡ first_in (path_tree path.now) }
{
    match &path.head {
        PathHead::Name(name) => name.place,
        PathHead::It(place) => *place,
        PathHead::Actor(place) => *place,
    }
}
