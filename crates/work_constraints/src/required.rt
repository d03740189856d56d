//! Constraints on what is read: of stated durations and of arguments.

ghost use Rattle.std.specs.Prelude.{◌≡◌, ◌++◌, ◌∷◌, [], map, option_map, IfOk, OnOk};
ghost use Rattle.text_constraints.specs.composition.Givens.{read_at as read_in, required as required_by};
ghost use Rattle.text_constraints.specs.composition.SeenParts.{seen_occurrence};
ghost use Rattle.text_constraints.specs.composition.Homes.{home};
ghost use Rattle.text_constraints.specs.composition.SeenScenes.{seen_scene};
ghost use Rattle.dsl_tree.specs.ExprTree.{ExprTree};
ghost use Rattle.dsl_tree.specs.Views.{expr_tree};
ghost use Rattle.expr_nodes.specs.Names.{duration_at as duration_read};
ghost use Rattle.expr_nodes.specs.Operators.{truth_at as truth_info};
ghost use Rattle.expr_nodes.specs.Seen.{seen, seen_info, seen_part};
ghost use Rattle.expr_nodes.specs.Typed as Nodes;
ghost use Rattle.expr_nodes.specs.Typed.{moved as moved_by};
ghost use Rattle.expr_nodes.specs.declared.compare.Compare.{Compare};
ghost use Rattle.expr_nodes.specs.Typing.{first, typed as typed_in};
ghost use Rattle.osc_base.specs.Paths.{then_duration as duration_of};
ghost use Rattle.work_constraints.specs.CallTexts.{duration_kept, is_span as span, one_read, parameter_kept, required_kept};
ghost use Rattle.text_constraints.specs.Kept.{seen_owner};
ghost use Rattle.text_constraints.specs.Sites.{at_home, seen_site, typed_home as home_typed};
ghost use Rattle.text_constraints.specs.scene_places.Placed.{place_in};

use dsl_tree::{Expr, Ident};
use expr_nodes::{Compare, Info, Size, Typed, Types, ValueKind};
use osc_base::{Boxed, Path, Place, Strength};
use scene_expansion::{first_place, then_duration};
use std::alloc::{AllocError, Global};
use text_constraints::{
    Occurrence, Owner, Places, TextSite, constraint, field_checked, moved_part, read_at, read_of,
    typed_home,
};
use units_si::Exponents;

/// The kind of a duration.
const SECONDS: Exponents = Exponents {
    kg: 0,
    m: 0,
    s: 1,
    a: 0,
    k: 0,
    mol: 0,
    cd: 0,
    rad: 0,
};

/// What a truth value that begins at the place holds of itself.
fn truth_at(place: Place) -> Info
    ensures { seen_info result ≡ truth_info place }
{
    Info {
        place,
        kind: ValueKind::Truth,
        size: Size::unit(),
    }
}

/// A duration that is read at a path.
fn duration_at(place: Place, path: Path) -> Typed
    ensures { seen result ≡ duration_read place path }
{
    let info = Info {
        place,
        kind: ValueKind::Number(SECONDS),
        size: Size::duration(),
    };
    Typed::Read {
        info,
        path,
        per: 1000,
    }
}

/// Whether an expression is a range.
fn is_span(typed: &Typed) -> bool
    ensures { result ≡ span (seen typed.now) }
{
    match typed {
        Typed::Span { .. } => true,
        Typed::Constant { .. }
        | Typed::Read { .. }
        | Typed::Whole { .. }
        | Typed::Listed { .. }
        | Typed::Minus { .. }
        | Typed::Not { .. }
        | Typed::Joined { .. }
        | Typed::Implies { .. }
        | Typed::Relation { .. }
        | Typed::Within { .. } => false,
    }
}

/// What is on the left is in the range on the right.
fn within(alloc: Global, place: Place, left: Typed, right: Typed) -> Result<Typed, AllocError>
    ensures { IfOk result (λ t. seen t ≡ Nodes.Within (truth_info place) (seen left) (seen right)) }
{
    Ok(Typed::Within {
        info: truth_at(place),
        left: Boxed::new(alloc, left)?,
        right: Boxed::new(alloc, right)?,
    })
}

/// What is on the left equals what is on the right.
fn equal(alloc: Global, place: Place, left: Typed, right: Typed) -> Result<Typed, AllocError>
    ensures { IfOk result (λ t. seen t ≡ Nodes.Relation (truth_info place) Compare.Equal (seen left) (seen right)) }
{
    Ok(Typed::Relation {
        info: truth_at(place),
        sign: Compare::Equal,
        left: Boxed::new(alloc, left)?,
        right: Boxed::new(alloc, right)?,
    })
}

/// What is on the left equals a value, or is in a range.
fn required_of(alloc: Global, place: Place, left: Typed, right: Typed) -> Result<Typed, AllocError>
    ensures { IfOk result (λ t. seen t ≡ required_by place (seen left) (seen right)) }
{
    if is_span(&right) {
        within(alloc, place, left, right)
    } else {
        equal(alloc, place, left, right)
    }
}

/// What is on the left equals a value or is in a range, if that has a typed form.
fn required_part(
    alloc: Global,
    place: Place,
    left: Typed,
    right: Option<Typed>,
) -> Result<Option<Typed>, AllocError>
    ensures { IfOk result (λ t. seen_part t ≡ option_map (required_by place (seen left)) (seen_part right)) }
{
    match right {
        Some(right) => Ok(Some(required_of(alloc, place, left, right)?)),
        None => Ok(None),
    }
}

/// What is on the left equals a value or range of a text.
fn required_typed(
    alloc: Global,
    types: &Types,
    text: &TextSite<'_, '_, '_>,
    left: Typed,
    value: &Expr,
) -> Result<Option<Typed>, AllocError>
    ensures { IfOk result (λ t. seen_part t ≡ option_map (required_by (first (expr_tree value.now)) (seen left)) (home_typed types.now.table (seen_site text.now) (expr_tree value.now))) }
{
    let right = typed_home(alloc, types, text, value)?;
    required_part(alloc, first_place(value), left, right)
}

/// A copy of the path that is read, if the expression is one read.
fn path_read(alloc: Global, typed: &Typed) -> Result<Option<Path>, AllocError>
    ensures { IfOk result (λ p. p ≡ read_in (seen typed.now)) }
{
    match read_of(typed) {
        Some(path) => Ok(Some(path.copy(alloc)?)),
        None => Ok(None),
    }
}

/// The constraint that what is read, at its home, equals a value or is in a range of a text.
fn required(
    alloc: Global,
    types: &Types,
    text: &TextSite<'_, '_, '_>,
    owner: &Owner<'_, '_>,
    left: Typed,
    value: &Expr,
) -> Result<Occurrence, AllocError>
    ensures { IfOk result (λ o. seen_occurrence o ≡ required_kept types.now.table (seen_site text.now) (seen_owner owner.now) (seen left) (expr_tree value.now)) }
{
    let place = first_place(value);
    let target = path_read(alloc, &left)?;
    let typed = required_typed(alloc, types, text, left, value)?;
    constraint(alloc, owner, place, Strength::Hard, target, typed)
}

/// The duration of a phase, which is read at its home.
fn duration_home(
    alloc: Global,
    places: &Places<'_>,
    owner: &Owner<'_, '_>,
    value: &Expr,
) -> Result<Typed, AllocError>
    ensures { IfOk result (λ t. seen t ≡ duration_read (first (expr_tree value.now)) (home (seen_scene places.now.scene.now).bindings (duration_of owner.now.holder.now))) }
{
    let duration = then_duration(alloc, owner.holder)?;
    let home = places.scene.moved(alloc, &duration)?;
    Ok(duration_at(first_place(value), home))
}

/// Puts a stated duration of a phase at the end.
pub(crate) fn push_duration(
    alloc: Global,
    types: &Types,
    text: &TextSite<'_, '_, '_>,
    owner: &Owner<'_, '_>,
    into: &mut Vec<Occurrence>,
    value: &Expr,
) -> Result<(), AllocError>
    ensures { OnOk result (map seen_occurrence into.new.items ≡ map seen_occurrence into.old.items ++ duration_kept types.now.table (seen_site text.now) (seen_owner owner.now) (expr_tree value.now) ∷ []) }
{
    let left = duration_home(alloc, &text.places, owner, value)?;
    into.push(required(alloc, types, text, owner, left, value)?)?;
    Ok(())
}

/// An expression that is one read, with its path at its home.
fn read_moved(
    alloc: Global,
    places: &Places<'_>,
    typed: &Option<Boxed<Typed>>,
) -> Result<Option<Typed>, AllocError>
    ensures { IfOk result (λ t. seen_part t ≡ option_map (moved_by (place_in places.now)) (one_read (seen_part typed.now))) }
{
    match read_at(typed) {
        Some(_path) => moved_part(alloc, places, typed),
        None => Ok(None),
    }
}

/// A parameter of `it` that holds a value, with its path at its home.
fn parameter(
    alloc: Global,
    types: &Types,
    text: &TextSite<'_, '_, '_>,
    place: Place,
    name: &Ident,
) -> Result<Option<Typed>, AllocError>
    ensures { IfOk result (λ t. seen_part t ≡ option_map (moved_by (at_home (seen_site text.now))) (one_read (typed_in types.now.table (seen_site text.now).scope (ExprTree.Dot (ExprTree.It place) name.now)))) }
{
    let known = field_checked(alloc, types, text.scope, place, name)?;
    read_moved(alloc, &text.places, &known.typed)
}

/// Puts what an argument for a parameter of `it` gives at the end. One for an object gives nothing.
pub(crate) fn push_parameter(
    alloc: Global,
    types: &Types,
    text: &TextSite<'_, '_, '_>,
    owner: &Owner<'_, '_>,
    into: &mut Vec<Occurrence>,
    name: &Ident,
    value: &Expr,
) -> Result<(), AllocError>
    ensures { OnOk result (map seen_occurrence into.new.items ≡ map seen_occurrence into.old.items ++ parameter_kept types.now.table (seen_site text.now) (seen_owner owner.now) (expr_tree value.now) name.now) }
{
    let Some(left) = parameter(alloc, types, text, first_place(value), name)? else {
        return Ok(());
    };
    into.push(required(alloc, types, text, owner, left, value)?)?;
    Ok(())
}
