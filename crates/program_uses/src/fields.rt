//! The faults of initial values, and of constraints on fields.

ghost use Rattle.std.specs.Prelude.{◌≡◌, [], None, cond, map, option_map, IfOk};
ghost use Rattle.std.specs.Option.{option_map_or};
ghost use Rattle.osc_base.specs.FaultRows.{first_from};
ghost use Rattle.dsl_tree.specs.Views.{expr_tree, field_tree};
ghost use Rattle.expr_nodes.specs.type_heads.Members.{items_in, list_length as length_of};
ghost use Rattle.expr_nodes.specs.Fits.{initial_fit_rows};
ghost use Rattle.expr_nodes.specs.Seen.{seen_kind, seen_size};
ghost use Rattle.expr_nodes.specs.SeenNames.{seen_it, seen_scope};
ghost use Rattle.expr_nodes.specs.Typing.{first as first_in, typed};
ghost use Rattle.program_calls.specs.composition.Uses.{values_given, values_rows};
ghost use Rattle.program_uses.specs.ExprParts.{listed_items, seen_exprs};
ghost use Rattle.program_uses.specs.FieldRows.{field_in, field_it, fitted_rows, initial_in};

use crate::expr_parts::list_items;
use crate::held::{Held, held_in};
use crate::rules::{with_expr, with_rules};
use dsl_tree::{Expr, FieldDecl};
use expr_eval::checked;
use expr_nodes::{FieldType, It, Scope, Types};
use osc_base::Fault;
use program_calls::first_place;
use std::alloc::{AllocError, Global};
use value_fits::with_initial;

/// Faults of a value that is given to a field.
fn with_value(
    alloc: Global,
    types: &Types,
    scope: &Scope<'_>,
    first: Option<Fault>,
    held: &Held,
    value: &Expr,
) -> Result<Option<Fault>, AllocError>
    ensures { IfOk result (λ f. f ≡ first_from first (initial_fit_rows (seen_kind held.now.kind) (seen_size held.now.size) (first_in (expr_tree value.now)) (typed types.now.table (seen_scope scope.now) (expr_tree value.now)))) }
{
    let known = checked(alloc, types, scope, value)?;
    let place = first_place(value);
    Ok(with_initial(first, held.kind, held.size, place, &known.typed))
}

/// Faults of values that are given to the elements of a list.
fn with_values(
    alloc: Global,
    types: &Types,
    scope: &Scope<'_>,
    first: Option<Fault>,
    held: &Held,
    values: &[Expr],
) -> Result<Option<Fault>, AllocError>
    ensures { IfOk result (λ f. f ≡ first_from first (values_rows types.now.table (seen_scope scope.now) (map expr_tree values.now) (seen_kind held.now.kind) (seen_size held.now.size))) }
{
    let mut fault = first;
    for value in values {
        fault = with_value(alloc, types, scope, fault, held, value)?;
    }
    Ok(fault)
}

/// The items of the initial value of a list. `None` if the value is given as one.
fn items_given(is_list: bool, initial: &Expr) -> Option<&[Expr]>
    ensures { option_map seen_exprs result ≡ cond is_list (listed_items (expr_tree initial.now)) None }
{
    if is_list { list_items(initial) } else { None }
}

/// Faults of an initial value: of the items of a list, or of one value.
fn with_given(
    alloc: Global,
    types: &Types,
    scope: &Scope<'_>,
    first: Option<Fault>,
    is_list: bool,
    held: &Held,
    initial: &Expr,
) -> Result<Option<Fault>, AllocError>
    ensures { IfOk result (λ f. f ≡ first_from first (values_rows types.now.table (seen_scope scope.now) (values_given is_list (expr_tree initial.now)) (seen_kind held.now.kind) (seen_size held.now.size))) }
{
    match items_given(is_list, initial) {
        Some(items) => with_values(alloc, types, scope, first, held, items),
        None => with_value(alloc, types, scope, first, held, initial),
    }
}

/// Faults of an initial value that its field doesn't hold.
fn with_fitted(
    alloc: Global,
    types: &Types,
    scope: &Scope<'_>,
    first: Option<Fault>,
    field: &FieldDecl,
    initial: &Expr,
) -> Result<Option<Fault>, AllocError>
    ensures { IfOk result (λ f. f ≡ first_from first (fitted_rows types.now.table (seen_scope scope.now) (field_tree field.now) (expr_tree initial.now))) }
{
    match types.named(None, field.of.text.as_str()) {
        Some(of) => {
            let held = held_in(types, of);
            with_given(
                alloc,
                types,
                scope,
                first,
                field.list.is_some(),
                &held,
                initial,
            )
        }
        None => Ok(first),
    }
}

/// Faults of the initial value of a field.
fn with_initial_value(
    alloc: Global,
    types: &Types,
    scope: &Scope<'_>,
    first: Option<Fault>,
    field: &FieldDecl,
) -> Result<Option<Fault>, AllocError>
    ensures { IfOk result (λ f. f ≡ first_from first (option_map_or (initial_in types.now.table (seen_scope scope.now) (field_tree field.now)) (option_map expr_tree field.now.initial) [])) }
{
    match &field.initial {
        Some(initial) => {
            let own = with_expr(alloc, types, scope, first, initial)?;
            with_fitted(alloc, types, scope, own, field, initial)
        }
        None => Ok(first),
    }
}

/// How many items a list has. More of them than a `u32` counts are out of memory.
fn item_count(initial: &Option<Expr>) -> Result<u32, AllocError>
    ensures { IfOk result (λ n. n ≡ items_in (option_map expr_tree initial.now)) }
{
    let Some(initial) = initial else {
        return Ok(0);
    };
    match list_items(initial) {
        Some(items) => u32::try_from(items.len()).ok().ok_or(AllocError),
        None => Ok(0),
    }
}

/// The number of elements of a list field.
fn list_length(field: &FieldDecl) -> Result<Option<u32>, AllocError>
    ensures { IfOk result (λ n. n ≡ length_of (field_tree field.now)) }
{
    match field.list {
        Some(_) => Ok(Some(item_count(&field.initial)?)),
        None => Ok(None),
    }
}

/// What `it` is in the `with:` of a field.
fn it_of(types: &Types, field: &FieldDecl) -> Result<Option<It>, AllocError>
    ensures { IfOk result (λ it. option_map seen_it it ≡ field_it types.now.table (field_tree field.now)) }
{
    match types.named(None, field.of.text.as_str()) {
        Some(of) => {
            let length = list_length(field)?;
            Ok(Some(It::Of(FieldType { of, length })))
        }
        None => Ok(None),
    }
}

/// Faults of a field: of its initial value and of its `with:`. The scope is that of its initial value.
pub(crate) fn with_field(
    alloc: Global,
    types: &Types,
    scope: &Scope<'_>,
    first: Option<Fault>,
    field: &FieldDecl,
) -> Result<Option<Fault>, AllocError>
    ensures { IfOk result (λ f. f ≡ first_from first (field_in types.now.table (seen_scope scope.now) (field_tree field.now))) }
{
    let valued = with_initial_value(alloc, types, scope, first, field)?;
    let it = it_of(types, field)?;
    let own = Scope {
        holder: scope.holder,
        it,
        labels: scope.labels,
        way: scope.way,
    };
    with_rules(alloc, types, &own, valued, field.rules.as_slice())
}
