//! The ends of the range of a modifier, and its other vehicle, at their homes.

ghost use Rattle.std.specs.Prelude.{◌≡◌, option_and_then, option_map, IfOk};
ghost use Rattle.object_works.specs.composition.Expansion as expansions;
ghost use Rattle.expr_nodes.specs.Seen.{seen, seen_part};
ghost use Rattle.expr_nodes.specs.Typing.{typed as typed_in};
ghost use Rattle.expr_nodes.specs.SeenNames.{seen_scope};
ghost use Rattle.object_works.specs.program_calls.SeenModifiers.{seen_value};
ghost use Rattle.scene_places.specs.Placed.{place_in};
ghost use Rattle.work_parts.specs.Modifiers.{high_at as high_of, low_at as low_of};

use dsl_tree::Expr;
use expr_nodes::{Scope, Typed, Types};
use object_works::{checked, object_at};
use osc_base::{Boxed, Path};
use scene_places::{Places, moved};
use std::alloc::{AllocError, Global};

/// The least value of a range. A value is the range from it to itself.
fn low_end(typed: &Typed) -> &Typed
    ensures { seen result.now ≡ expansions.low_end (seen typed.now) }
{
    match typed {
        Typed::Span { low, .. } => low.get(),
        Typed::Constant { .. }
        | Typed::Read { .. }
        | Typed::Whole { .. }
        | Typed::Listed { .. }
        | Typed::Minus { .. }
        | Typed::Not { .. }
        | Typed::Joined { .. }
        | Typed::Implies { .. }
        | Typed::Relation { .. }
        | Typed::Within { .. } => typed,
    }
}

/// The greatest value of a range. A value is the range from it to itself.
fn high_end(typed: &Typed) -> &Typed
    ensures { seen result.now ≡ expansions.high_end (seen typed.now) }
{
    match typed {
        Typed::Span { high, .. } => high.get(),
        Typed::Constant { .. }
        | Typed::Read { .. }
        | Typed::Whole { .. }
        | Typed::Listed { .. }
        | Typed::Minus { .. }
        | Typed::Not { .. }
        | Typed::Joined { .. }
        | Typed::Implies { .. }
        | Typed::Relation { .. }
        | Typed::Within { .. } => typed,
    }
}

/// The typed form of an expression, if it is written and has one.
pub(crate) fn typed_part(
    alloc: Global,
    types: &Types,
    scope: &Scope<'_>,
    expr: Option<&Expr>,
) -> Result<Option<Boxed<Typed>>, AllocError>
    ensures { IfOk result (λ t. seen_part t ≡ option_and_then (typed_in types.now.table (seen_scope scope.now)) (option_map seen_value expr.entry)) }
{
    match expr {
        Some(expr) => {
            let known = checked(alloc, types, scope, expr)?;
            Ok(known.typed)
        }
        None => Ok(None),
    }
}

/// The home of the object to which an expression leads, if it leads to one.
pub(crate) fn vehicle_at(
    alloc: Global,
    places: &Places<'_>,
    typed: &Option<Boxed<Typed>>,
) -> Result<Option<Path>, AllocError>
    ensures { IfOk result (λ p. p ≡ option_map (place_in places.now) (option_and_then expansions.object_at (seen_part typed.now))) }
{
    match object_at(typed) {
        Some(path) => Ok(Some(places.place(alloc, path)?)),
        None => Ok(None),
    }
}

/// The least value of a range, if there is one, with what it reads at its home.
pub(crate) fn low_at(
    alloc: Global,
    places: &Places<'_>,
    typed: &Option<Boxed<Typed>>,
) -> Result<Option<Typed>, AllocError>
    ensures { IfOk result (λ t. seen_part t ≡ option_map (low_of (place_in places.now)) (seen_part typed.now)) }
{
    match typed {
        Some(typed) => Ok(Some(moved(alloc, places, low_end(typed.get()))?)),
        None => Ok(None),
    }
}

/// The greatest value of a range, if there is one, with what it reads at its home.
pub(crate) fn high_at(
    alloc: Global,
    places: &Places<'_>,
    typed: &Option<Boxed<Typed>>,
) -> Result<Option<Typed>, AllocError>
    ensures { IfOk result (λ t. seen_part t ≡ option_map (high_of (place_in places.now)) (seen_part typed.now)) }
{
    match typed {
        Some(typed) => Ok(Some(moved(alloc, places, high_end(typed.get()))?)),
        None => Ok(None),
    }
}
