//! The faults of the arguments of an invocation.

ghost use Rattle.std.specs.Prelude.{◌≡◌, ◌||◌, [], None, Some, cond, is_some, map, not, IfOk};
ghost use Rattle.osc_base.specs.FaultRows.{first_from};
ghost use Rattle.dsl_tree.specs.Views.{argument_tree, expr_tree, field_tree};
ghost use Rattle.expr_nodes.specs.Fits.{duration_fit_rows};
ghost use Rattle.expr_nodes.specs.Parts.{of_one};
ghost use Rattle.expr_nodes.specs.Seen.{seen_part};
ghost use Rattle.expr_nodes.specs.SeenNames.{seen_scope};
ghost use Rattle.expr_nodes.specs.Typing.{first as first_in, typed};
ghost use Rattle.program_calls.specs.composition.Calls.{Assigned as AssignedTo};
ghost use Rattle.program_calls.specs.composition.Uses.{argument_place as place_of_argument, given_rows, is_object_of, object_rows};
ghost use Rattle.program_uses.specs.ArgumentRows.{Continues, arguments_in, assigned_in, field_value_rows, seen_assigned, value_rows};
ghost use Rattle.program_fields.specs.SeenFields.{seen_field};
ghost use Rattle.program_fields.specs.Tables.{fields_in};
ghost use Rattle.program_uses.specs.TableTypes.{of_table};

use crate::held::{held_in, holds_object};
use crate::rules::with_expr;
use dsl_tree::{Argument, Expr, FieldDecl, Ident};
use expr_eval::checked;
use expr_nodes::{Scope, TypeId, Typed, Types};
use fault_sets::TextSet;
use name_scope::with_fault;
use osc_base::{Boxed, Fault, FaultCode, Place};
use program_calls::{begins_with_label, first_place, is_path};
use program_fields::{FieldsOf, TypeField};
use std::alloc::{AllocError, Global};
use value_fits::{with_argument, with_duration};

/// Where an argument goes: to no field, as there are more of them than fields; to the duration; to nothing that the
/// name tells; or to a field.
#[derive(Clone, Copy)]
pub(crate) enum Assigned<'a> {
    Surplus,
    Duration,
    Unknown(&'a Ident),
    Given(TypeField<'a>),
}

/// Where an argument with a name goes.
fn assigned_by_name<'a>(fields: &FieldsOf<'_, 'a>, name: &'a Ident) -> Assigned<'a>
    ensures { seen_assigned result ≡ assigned_in (fields_in fields.now) 0 (Some name.entry.now) }
{
    if name.text.as_str() == "duration" {
        return Assigned::Duration;
    }
    match fields.named(name.text.as_str()) {
        Some(field) => Assigned::Given(field),
        None => Assigned::Unknown(name),
    }
}

/// Where the argument of that number goes.
fn assignment<'a>(fields: &FieldsOf<'_, 'a>, number: usize, name: &'a Option<Ident>) -> Assigned<'a>
    ensures { seen_assigned result ≡ assigned_in (fields_in fields.now) number name.entry.now }
{
    match name {
        Some(name) => assigned_by_name(fields, name),
        None => match fields.at(number) {
            Some(field) => Assigned::Given(field),
            None => Assigned::Surplus,
        },
    }
}

/// The place of an argument: that of its name, if it has one.
fn argument_place(argument: &Argument) -> Place
    ensures { result ≡ place_of_argument (argument_tree argument.now) }
{
    match &argument.name {
        Some(name) => name.place,
        None => first_place(&argument.value),
    }
}

/// Whether a part is something else than an object of the type.
fn is_no_object_of(types: &Types, of: TypeId, typed: &Option<Boxed<Typed>>) -> bool
    ensures { result ≡ of_one (seen_part typed.now) (λ x. not (is_object_of types.now.table.heads of x)) }
{
    match typed {
        Some(typed) => match typed.get().info().kind.object_type() {
            Some(held) => !types.is_kind_of(of, held),
            None => true,
        },
        None => false,
    }
}

/// A fault of an argument that is no path to an object of the type, or begins with a label.
fn with_object(
    alloc: Global,
    types: &Types,
    scope: &Scope<'_>,
    first: Option<Fault>,
    of: TypeId,
    value: &Expr,
) -> Result<Option<Fault>, AllocError>
    ensures { IfOk result (λ f. f ≡ first_from first (object_rows types.now.table (seen_scope scope.now) of (expr_tree value.now))) }
{
    let known = checked(alloc, types, scope, value)?;
    let isnt_path_to = !is_path(value) || is_no_object_of(types, of, &known.typed);
    let is_wrong = isnt_path_to || begins_with_label(types, scope, value);
    let place = first_place(value);
    Ok(with_fault(first, place, FaultCode::WrongKind, is_wrong))
}

/// Faults of an argument that a field of one value doesn't hold.
fn with_value(
    alloc: Global,
    types: &Types,
    scope: &Scope<'_>,
    first: Option<Fault>,
    of: TypeId,
    value: &Expr,
) -> Result<Option<Fault>, AllocError>
    ensures { IfOk result (λ f. f ≡ first_from first (value_rows types.now.table (seen_scope scope.now) of (expr_tree value.now))) }
{
    let known = checked(alloc, types, scope, value)?;
    let held = held_in(types, of);
    let place = first_place(value);
    Ok(with_argument(first, held.kind, held.size, place, &known.typed))
}

/// Faults of an argument for a field of the type.
fn with_given(
    alloc: Global,
    types: &Types,
    scope: &Scope<'_>,
    first: Option<Fault>,
    of: TypeId,
    value: &Expr,
) -> Result<Option<Fault>, AllocError>
    ensures { IfOk result (λ f. f ≡ first_from first (given_rows (of_table None types.now.table) (seen_scope scope.now) of (expr_tree value.now))) }
{
    if holds_object(types, of) {
        with_object(alloc, types, scope, first, of, value)
    } else {
        with_value(alloc, types, scope, first, of, value)
    }
}

/// Faults of an argument for a field that is no list.
fn with_field_value(
    alloc: Global,
    types: &Types,
    scope: &Scope<'_>,
    first: Option<Fault>,
    decl: &FieldDecl,
    value: &Expr,
) -> Result<Option<Fault>, AllocError>
    ensures { IfOk result (λ f. f ≡ first_from first (field_value_rows types.now.table (seen_scope scope.now) (field_tree decl.now) (expr_tree value.now))) }
{
    match types.named(None, decl.of.text.as_str()) {
        Some(of) => with_given(alloc, types, scope, first, of, value),
        None => Ok(first),
    }
}

/// Faults of an argument for a field, if the field is no list.
fn with_unlisted(
    alloc: Global,
    types: &Types,
    scope: &Scope<'_>,
    first: Option<Fault>,
    decl: &FieldDecl,
    value: &Expr,
) -> Result<Option<Fault>, AllocError>
    ensures { IfOk result (λ f. f ≡ first_from first (cond (is_some decl.now.list) [] (field_value_rows types.now.table (seen_scope scope.now) (field_tree decl.now) (expr_tree value.now)))) }
{
    match decl.list {
        Some(_) => Ok(first),
        None => with_field_value(alloc, types, scope, first, decl, value),
    }
}

/// Whether an argument for a field is refused: one was given before, or the field is a list.
fn is_refused(is_met: bool, is_list: bool) -> bool
    ensures { result ≡ (is_met || is_list) }
{
    is_met || is_list
}

/// Faults of an argument for a field. No argument goes to a list field.
fn with_field<'a>(
    alloc: Global,
    types: &Types,
    scope: &Scope<'_>,
    first: Option<Fault>,
    met: &mut TextSet<'a>,
    field: TypeField<'a>,
    argument: &Argument,
) -> Result<Option<Fault>, AllocError>
    ensures { IfOk result (λ f. Continues types.now.table (seen_scope scope.now) first met.old f met.new (argument_tree argument.now) (AssignedTo.Given (seen_field field.entry))) }
{
    let is_met = met.meet(field.name.text.as_str())?;
    let is_list = field.decl.list.is_some();
    let place = argument_place(argument);
    let is_wrong = is_refused(is_met, is_list);
    let own = with_fault(first, place, FaultCode::BadArgument, is_wrong);
    with_unlisted(alloc, types, scope, own, field.decl, &argument.value)
}

/// Faults of a stated duration.
pub(crate) fn with_stated_duration(
    alloc: Global,
    types: &Types,
    scope: &Scope<'_>,
    first: Option<Fault>,
    value: &Expr,
) -> Result<Option<Fault>, AllocError>
    ensures { IfOk result (λ f. f ≡ first_from first (duration_fit_rows (first_in (expr_tree value.now)) (typed types.now.table (seen_scope scope.now) (expr_tree value.now)))) }
{
    let known = checked(alloc, types, scope, value)?;
    Ok(with_duration(first, first_place(value), &known.typed))
}

/// Faults of an argument for the duration.
fn with_duration_argument(
    alloc: Global,
    types: &Types,
    scope: &Scope<'_>,
    first: Option<Fault>,
    met: &mut TextSet<'_>,
    argument: &Argument,
) -> Result<Option<Fault>, AllocError>
    ensures { IfOk result (λ f. Continues types.now.table (seen_scope scope.now) first met.old f met.new (argument_tree argument.now) AssignedTo.Duration) }
{
    let is_met = met.meet("duration")?;
    let place = argument_place(argument);
    let own = with_fault(first, place, FaultCode::BadArgument, is_met);
    with_stated_duration(alloc, types, scope, own, &argument.value)
}

/// Faults of an argument, given where it goes.
fn with_assigned<'a>(
    alloc: Global,
    types: &Types,
    scope: &Scope<'_>,
    first: Option<Fault>,
    met: &mut TextSet<'a>,
    to: Assigned<'a>,
    argument: &Argument,
) -> Result<Option<Fault>, AllocError>
    ensures { IfOk result (λ f. Continues types.now.table (seen_scope scope.now) first met.old f met.new (argument_tree argument.now) (seen_assigned to.entry)) }
{
    match to {
        Assigned::Surplus => {
            let place = first_place(&argument.value);
            Ok(with_fault(first, place, FaultCode::BadArgument, true))
        }
        Assigned::Unknown(name) => Ok(with_fault(first, name.place, FaultCode::Unknown, true)),
        Assigned::Duration => with_duration_argument(alloc, types, scope, first, met, argument),
        Assigned::Given(field) => with_field(alloc, types, scope, first, met, field, argument),
    }
}

/// Faults of the arguments of an invocation of a type that has these fields.
pub(crate) fn with_arguments<'a>(
    alloc: Global,
    types: &Types,
    scope: &Scope<'_>,
    first: Option<Fault>,
    fields: &FieldsOf<'_, 'a>,
    arguments: &'a [Argument],
) -> Result<Option<Fault>, AllocError>
    ensures { IfOk result (λ f. f ≡ first_from first (arguments_in types.now.table (seen_scope scope.now) (fields_in fields.now) [] 0 (map argument_tree arguments.entry.now))) }
{
    let mut met = TextSet::new(alloc);
    let mut fault = first;
    for (number, argument) in arguments.iter().enumerate() {
        let own = with_expr(alloc, types, scope, fault, &argument.value)?;
        let to = assignment(fields, number, &argument.name);
        fault = with_assigned(alloc, types, scope, own, &mut met, to, argument)?;
    }
    Ok(fault)
}
