//! The constraints of the arguments of an invocation.

ghost use Rattle.std.specs.Prelude.{◌≡◌, map, option_map, IfOk};
ghost use Rattle.dsl_tree.specs.Views.{argument_tree, expr_tree};
ghost use Rattle.work_counts.specs.program_fields.SeenFields.{seen_field};
ghost use Rattle.work_counts.specs.program_fields.Tables.{fields_in};
ghost use Rattle.work_counts.specs.program_texts.SeenTexts.{types_in};
ghost use Rattle.expr_nodes.specs.type_heads.Members.{fields as fields_of};
ghost use Rattle.work_counts.specs.Amounts.{kept};
ghost use Rattle.expr_nodes.specs.Seen.{seen_part};
ghost use Rattle.work_parts.specs.Arguments.{argument_amount, arguments_amount, duration_amount, field_amount, is_duration_argument, is_parameter as takes_value, named_amount, reads_one};

use dsl_tree::{Argument, Expr, Ident};
use expr_nodes::{FieldType, It, Scope, TypeId, Typed, Types};
use object_works::{first_place, it, pointed};
use osc_base::{Boxed, Place};
use std::alloc::{AllocError, Global};
use work_counts::{FieldsOf, ProgramTexts, Tally, TypeField, value_tally};

/// Whether one value is read.
fn is_read(typed: &Option<Boxed<Typed>>) -> bool
    ensures { result ≡ reads_one (seen_part typed.now) }
{
    match typed {
        Some(typed) => typed.get().is_read(),
        None => false,
    }
}

/// Whether the field of that name of an object of a type has one value.
fn is_parameter(
    alloc: Global,
    types: &Types,
    of: TypeId,
    place: Place,
    name: &Ident,
) -> Result<bool, AllocError>
    ensures { IfOk result (λ is. is ≡ takes_value types.now.table of place name.now) }
{
    let scope = Scope {
        holder: of,
        it: Some(It::Of(FieldType { of, length: None })),
        labels: None,
        way: &[],
    };
    let object = it(alloc, types, &scope, place)?;
    let field = pointed(alloc, types, object, name)?;
    Ok(is_read(&field.typed))
}

/// An argument for a field, if there is one. One for an object has no rule.
fn field_tally(
    alloc: Global,
    texts: &ProgramTexts<'_>,
    of: TypeId,
    field: Option<TypeField<'_>>,
    value: &Expr,
) -> Result<Tally, AllocError>
    ensures { IfOk result (λ t. t ≡ kept (field_amount (types_in texts.now).table of (expr_tree value.now) (option_map seen_field field.entry))) }
{
    let Some(field) = field else {
        return Ok(Tally::none());
    };
    if is_parameter(alloc, texts.types(), of, first_place(value), field.name)? {
        Ok(value_tally(value))
    } else {
        Ok(Tally::none())
    }
}

/// An argument with a name.
fn named_tally(
    alloc: Global,
    texts: &ProgramTexts<'_>,
    of: TypeId,
    fields: &FieldsOf<'_, '_>,
    name: &str,
    value: &Expr,
) -> Result<Tally, AllocError>
    ensures { IfOk result (λ t. t ≡ kept (named_amount (types_in texts.now).table of (fields_in fields.now) name.now (expr_tree value.now))) }
{
    if name == "duration" {
        return Ok(value_tally(value));
    }
    field_tally(alloc, texts, of, fields.named(name), value)
}

/// The argument at a place.
fn argument_tally(
    alloc: Global,
    texts: &ProgramTexts<'_>,
    of: TypeId,
    fields: &FieldsOf<'_, '_>,
    place: usize,
    argument: &Argument,
) -> Result<Tally, AllocError>
    ensures { IfOk result (λ t. t ≡ kept (argument_amount (types_in texts.now).table of (fields_in fields.now) place (argument_tree argument.now))) }
{
    let value = &argument.value;
    match &argument.name {
        Some(name) => named_tally(alloc, texts, of, fields, name.text.as_str(), value),
        None => field_tally(alloc, texts, of, fields.at(place), value),
    }
}

/// Arguments, given the fields of the invoked type.
fn given_tally(
    alloc: Global,
    texts: &ProgramTexts<'_>,
    of: TypeId,
    fields: &FieldsOf<'_, '_>,
    arguments: &[Argument],
) -> Result<Tally, AllocError>
    ensures { IfOk result (λ t. t ≡ kept (arguments_amount (types_in texts.now).table of (fields_in fields.now) 0 (map argument_tree arguments.now))) }
{
    let mut all = Tally::none();
    for (place, argument) in arguments.iter().enumerate() {
        let own = argument_tally(alloc, texts, of, fields, place, argument)?;
        all = all.with(own);
    }
    Ok(all)
}

/// The arguments of an invocation of a type.
pub(crate) fn arguments_tally(
    alloc: Global,
    texts: &ProgramTexts<'_>,
    of: TypeId,
    arguments: &[Argument],
) -> Result<Tally, AllocError>
    ensures { IfOk result (λ t. t ≡ kept (arguments_amount (types_in texts.now).table of (fields_of (types_in texts.now) of) 0 (map argument_tree arguments.now))) }
{
    let fields = texts.fields_of(of);
    given_tally(alloc, texts, of, &fields, arguments)
}

/// Whether an argument is `duration:`.
fn is_duration(argument: &Argument) -> bool
    ensures { result ≡ is_duration_argument (argument_tree argument.now) }
{
    match &argument.name {
        Some(name) => name.text.as_str() == "duration",
        None => false,
    }
}

/// The stated duration of a composition, if there is one.
pub(crate) fn duration_tally(arguments: &[Argument]) -> Tally
    ensures { result ≡ kept (duration_amount (map argument_tree arguments.now)) }
{
    for argument in arguments {
        if is_duration(argument) {
            return value_tally(&argument.value);
        }
    }
    Tally::none()
}
