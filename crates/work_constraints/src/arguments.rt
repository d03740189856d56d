//! The constraints of an invocation: of its arguments and of its `with:`.

ghost use Rattle.std.specs.Prelude.{◌≡◌, ◌++◌, ◌∷◌, [], None, Some, flat_map, map, option_map, option_to_list, IfOk, OnOk};
ghost use Rattle.text_constraints.specs.composition.SeenParts.{seen_occurrence};
ghost use Rattle.dsl_tree.specs.Views.{argument_tree, expr_tree, part_tree};
ghost use Rattle.expr_nodes.specs.Scope as Scopes;
ghost use Rattle.expr_nodes.specs.SeenNames.{seen_scope};
ghost use Rattle.text_constraints.specs.program_fields.SeenFields.{seen_field};
ghost use Rattle.text_constraints.specs.program_fields.Tables.{fields_in};
ghost use Rattle.work_constraints.specs.CallTexts.{argument_field, argument_kept, arguments_kept, for_duration, invocation_kept, part_kept, with_it};
ghost use Rattle.work_constraints.specs.CallTexts as CallTexts;
ghost use Rattle.text_constraints.specs.Kept.{seen_owner};
ghost use Rattle.text_constraints.specs.Sites.{seen_site, site_of};

use crate::required::{push_duration, push_parameter};
use dsl_tree::{Argument, Expr, Ident, InvokeNode, InvokePart};
use expr_nodes::{FieldType, It, Scope, TypeId, Types};
use std::alloc::{AllocError, Global};
use text_constraints::{FieldsOf, Occurrence, Owner, Places, TextSite, TypeField, push_rule};

/// Whether an argument is for the duration.
fn is_for_duration(name: &Option<Ident>) -> bool
    ensures { result ≡ for_duration name.now }
{
    match name {
        Some(name) => name.text.as_str() == "duration",
        None => false,
    }
}

/// The field to which the argument at a place goes, unless it is for the duration.
fn field_of<'p>(
    fields: &FieldsOf<'_, 'p>,
    place: usize,
    name: &Option<Ident>,
) -> Option<TypeField<'p>>
    ensures { option_map seen_field result ≡ argument_field (fields_in fields.now) place name.now }
{
    match name {
        None => fields.at(place),
        Some(name) => fields.named(name.text.as_str()),
    }
}

/// Puts what an argument for the duration gives at the end. In its scope, `it` is nothing.
fn push_stated(
    alloc: Global,
    types: &Types,
    places: &Places<'_>,
    owner: &Owner<'_, '_>,
    scope: &Scope<'_>,
    into: &mut Vec<Occurrence>,
    value: &Expr,
) -> Result<(), AllocError>
    ensures { OnOk result (map seen_occurrence into.new.items ≡ map seen_occurrence into.old.items ++ CallTexts.duration_kept types.now.table (with_it (site_of places.now (seen_scope scope.now)) None) (seen_owner owner.now) (expr_tree value.now) ∷ []) }
{
    let own = Scope {
        holder: scope.holder,
        it: None,
        labels: scope.labels,
        way: scope.way,
    };
    let text = TextSite {
        places: *places,
        scope: &own,
    };
    push_duration(alloc, types, &text, owner, into, value)
}

/// Puts what an argument for a field of the invoked type gives at the end. In its scope, `it` is the invoked object.
fn push_given(
    alloc: Global,
    types: &Types,
    places: &Places<'_>,
    owner: &Owner<'_, '_>,
    scope: &Scope<'_>,
    of: TypeId,
    into: &mut Vec<Occurrence>,
    name: &Ident,
    value: &Expr,
) -> Result<(), AllocError>
    ensures { OnOk result (map seen_occurrence into.new.items ≡ map seen_occurrence into.old.items ++ CallTexts.parameter_kept types.now.table (with_it (site_of places.now (seen_scope scope.now)) (Some (Scopes.It.Of of None))) (seen_owner owner.now) (expr_tree value.now) name.now) }
{
    let own = Scope {
        holder: scope.holder,
        it: Some(It::Of(FieldType { of, length: None })),
        labels: scope.labels,
        way: scope.way,
    };
    let text = TextSite {
        places: *places,
        scope: &own,
    };
    push_parameter(alloc, types, &text, owner, into, name, value)
}

/// Puts what an argument that is not for the duration gives at the end.
fn push_fielded(
    alloc: Global,
    types: &Types,
    places: &Places<'_>,
    owner: &Owner<'_, '_>,
    scope: &Scope<'_>,
    of: TypeId,
    into: &mut Vec<Occurrence>,
    field: Option<TypeField<'_>>,
    value: &Expr,
) -> Result<(), AllocError>
    ensures { OnOk result (map seen_occurrence into.new.items ≡ map seen_occurrence into.old.items ++ flat_map (CallTexts.field_argument types.now.table (site_of places.now (seen_scope scope.now)) (seen_owner owner.now) of (expr_tree value.now)) (option_to_list (option_map seen_field field.entry))) }
{
    match field {
        Some(field) => push_given(
            alloc, types, places, owner, scope, of, into, field.name, value,
        ),
        None => Ok(()),
    }
}

/// Puts what the argument at a place of an invocation of a type gives at the end.
fn push_argument(
    alloc: Global,
    types: &Types,
    places: &Places<'_>,
    owner: &Owner<'_, '_>,
    scope: &Scope<'_>,
    of: TypeId,
    fields: &FieldsOf<'_, '_>,
    into: &mut Vec<Occurrence>,
    place: usize,
    argument: &Argument,
) -> Result<(), AllocError>
    ensures { OnOk result (map seen_occurrence into.new.items ≡ map seen_occurrence into.old.items ++ argument_kept types.now.table (site_of places.now (seen_scope scope.now)) (seen_owner owner.now) of (fields_in fields.now) place (argument_tree argument.now)) }
{
    if is_for_duration(&argument.name) {
        return push_stated(alloc, types, places, owner, scope, into, &argument.value);
    }
    let field = field_of(fields, place, &argument.name);
    push_fielded(
        alloc,
        types,
        places,
        owner,
        scope,
        of,
        into,
        field,
        &argument.value,
    )
}

/// Puts what the arguments of an invocation of a type give at the end.
fn push_arguments(
    alloc: Global,
    types: &Types,
    places: &Places<'_>,
    owner: &Owner<'_, '_>,
    scope: &Scope<'_>,
    of: TypeId,
    fields: &FieldsOf<'_, '_>,
    into: &mut Vec<Occurrence>,
    arguments: &[Argument],
) -> Result<(), AllocError>
    ensures { OnOk result (map seen_occurrence into.new.items ≡ map seen_occurrence into.old.items ++ arguments_kept types.now.table (site_of places.now (seen_scope scope.now)) (seen_owner owner.now) of (fields_in fields.now) 0 (map argument_tree arguments.now)) }
{
    for (place, argument) in arguments.iter().enumerate() {
        push_argument(
            alloc, types, places, owner, scope, of, fields, into, place, argument,
        )?;
    }
    Ok(())
}

/// Puts what a part of a `with:` gives at the end. A modifier gives no constraint.
fn push_part(
    alloc: Global,
    types: &Types,
    text: &TextSite<'_, '_, '_>,
    owner: &Owner<'_, '_>,
    into: &mut Vec<Occurrence>,
    part: &InvokePart,
) -> Result<(), AllocError>
    ensures { OnOk result (map seen_occurrence into.new.items ≡ map seen_occurrence into.old.items ++ part_kept types.now.table (seen_site text.now) (seen_owner owner.now) (part_tree part.now)) }
{
    match part {
        InvokePart::Rule(rule) => push_rule(alloc, types, text, owner, into, rule),
        InvokePart::Modifier(_) => Ok(()),
    }
}

/// Puts what the parts of a `with:` give at the end.
fn push_parts(
    alloc: Global,
    types: &Types,
    text: &TextSite<'_, '_, '_>,
    owner: &Owner<'_, '_>,
    into: &mut Vec<Occurrence>,
    parts: &[InvokePart],
) -> Result<(), AllocError>
    ensures { OnOk result (map seen_occurrence into.new.items ≡ map seen_occurrence into.old.items ++ flat_map (part_kept types.now.table (seen_site text.now) (seen_owner owner.now)) (map part_tree parts.now)) }
{
    for part in parts {
        push_part(alloc, types, text, owner, into, part)?;
    }
    Ok(())
}

/// Puts what the `with:` of an invocation of a type gives at the end.
fn push_with(
    alloc: Global,
    types: &Types,
    places: &Places<'_>,
    owner: &Owner<'_, '_>,
    scope: &Scope<'_>,
    of: TypeId,
    into: &mut Vec<Occurrence>,
    parts: &[InvokePart],
) -> Result<(), AllocError>
    ensures { OnOk result (map seen_occurrence into.new.items ≡ map seen_occurrence into.old.items ++ flat_map (part_kept types.now.table (with_it (site_of places.now (seen_scope scope.now)) (Some (Scopes.It.Of of None))) (seen_owner owner.now)) (map part_tree parts.now)) }
{
    let own = Scope {
        holder: scope.holder,
        it: Some(It::Of(FieldType { of, length: None })),
        labels: scope.labels,
        way: scope.way,
    };
    let text = TextSite {
        places: *places,
        scope: &own,
    };
    push_parts(alloc, types, &text, owner, into, parts)
}

/// Puts what an invocation of a type with such fields gives at the end: its arguments, and its `with:`.
pub(crate) fn push_invocation(
    alloc: Global,
    types: &Types,
    places: &Places<'_>,
    owner: &Owner<'_, '_>,
    scope: &Scope<'_>,
    of: TypeId,
    fields: &FieldsOf<'_, '_>,
    into: &mut Vec<Occurrence>,
    node: &InvokeNode,
) -> Result<(), AllocError>
    ensures { OnOk result (map seen_occurrence into.new.items ≡ map seen_occurrence into.old.items ++ invocation_kept types.now.table (site_of places.now (seen_scope scope.now)) (seen_owner owner.now) of (fields_in fields.now) (map argument_tree node.now.arguments) (map part_tree node.now.parts)) }
{
    let arguments = node.arguments.as_slice();
    push_arguments(
        alloc, types, places, owner, scope, of, fields, into, arguments,
    )?;
    push_with(
        alloc,
        types,
        places,
        owner,
        scope,
        of,
        into,
        node.parts.as_slice(),
    )
}
