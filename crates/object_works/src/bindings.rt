//! The bindings that a call makes.

ghost use Rattle.std.specs.Prelude.{◌≡◌, ◌++◌, None, Some, map, option_and_then, option_copied, option_map, IfOk, OnOk};
ghost use Rattle.dsl_tree.specs.Views.{argument_tree, expr_tree};
ghost use Rattle.scene_expansion.specs.composition.Expansion as Expansion;
ghost use Rattle.scene_expansion.specs.composition.Expansion.{argument_binding, here_in, of_arguments};
ghost use Rattle.scene_expansion.specs.composition.SeenParts.{seen_binding};
ghost use Rattle.scene_expansion.specs.expansion_laws.Works.{bindings_made as bindings_of};
ghost use Rattle.expr_nodes.specs.Scope as Scopes;
ghost use Rattle.expr_nodes.specs.Seen.{seen, seen_part};
ghost use Rattle.expr_nodes.specs.SeenNames.{seen_scope};
ghost use Rattle.expr_nodes.specs.Typing.{typed as typed_in};
ghost use Rattle.scene_expansion.specs.program_calls.SeenCallees.{seen_callee};
ghost use Rattle.scene_expansion.specs.program_calls.SeenLabels.{do_labels, seen_labels};
ghost use Rattle.expr_nodes.specs.type_heads.Types.{Types};
ghost use Rattle.scene_expansion.specs.SeenWorks.{seen_call};
ghost use Rattle.scene_expansion.specs.scene_texts.Moving.{seen_bound};
ghost use Rattle.program_texts.specs.program_fields.SeenFields.{seen_field};
ghost use Rattle.program_texts.specs.program_fields.Tables.{fields_in};
ghost use Rattle.program_texts.specs.SeenTexts.{types_in};
ghost use Rattle.object_works.specs.Arguments.{actor_bound, arguments_bound, assigned_field, binding_at, bindings_to};
ghost use Rattle.object_works.specs.Arguments as arguments_of;

use dsl_tree::{Argument, Ident, InvokeNode};
use expr_eval::checked;
use expr_nodes::{FieldType, It, LabelTable, Scope, Typed};
use osc_base::{Boxed, Path, Row};
use program_texts::{FieldsOf, ProgramTexts, TypeField, TypeId, then_name};
use scene_expansion::{Binding, Bound, Call, Callee, Moves, actor_checked, callee_of, scope_at};
use std::alloc::{AllocError, Global};

/// The scope of the arguments of a call, in which `it` is the object that the call makes. The labels are those of the
/// `do` in which the call stands.
pub fn call_scope<'c>(labels: &'c LabelTable, call: &'c Call, of: TypeId) -> Scope<'c>
    ensures { (ts : Types) → seen_labels labels.entry.now ≡ do_labels ts call.entry.now.holder → seen_scope result ≡ (here_in ts (seen_call call.entry.now) (Some (Scopes.It.Of of None))).scope }
{
    let it = It::Of(FieldType { of, length: None });
    scope_at(call.holder, Some(it), labels, call.way.as_slice())
}

/// The path of a whole object or phase.
fn whole_path(typed: &Typed) -> Option<&Path>
    ensures { option_copied result ≡ Expansion.object_at (seen typed.now) }
{
    match typed {
        Typed::Whole { path, .. } => Some(path),
        Typed::Constant { .. }
        | Typed::Read { .. }
        | Typed::Listed { .. }
        | Typed::Span { .. }
        | Typed::Minus { .. }
        | Typed::Not { .. }
        | Typed::Joined { .. }
        | Typed::Implies { .. }
        | Typed::Relation { .. }
        | Typed::Within { .. } => None,
    }
}

/// The path of what an expression leads to, if it is a whole object or phase.
pub fn object_at(typed: &Option<Boxed<Typed>>) -> Option<&Path>
    ensures { option_copied result ≡ option_and_then Expansion.object_at (seen_part typed.now) }
{
    match typed {
        Some(typed) => whole_path(typed.get()),
        None => None,
    }
}

/// A binding with equal paths.
fn bound_of(alloc: Global, binding: &Binding) -> Result<Bound, AllocError>
    ensures { IfOk result (λ b. seen_bound b ≡ seen_binding binding.now) }
{
    Ok(Bound {
        at: binding.at.copy(alloc)?,
        home: binding.home.copy(alloc)?,
    })
}

/// Bindings with equal paths.
fn bounds_of(alloc: Global, bindings: &[Binding]) -> Result<Row<Bound>, AllocError>
    ensures { IfOk result (λ bs. map seen_bound bs ≡ map seen_binding bindings.now) }
{
    let mut bounds = Row::new(alloc);
    for binding in bindings {
        bounds.push(bound_of(alloc, binding)?)?;
    }
    Ok(bounds)
}

/// The binding of a name to an object of the call's text.
fn bound(
    alloc: Global,
    call: &Call,
    homes: &[Bound],
    name: &str,
    object: &Path,
) -> Result<Binding, AllocError>
    ensures { IfOk result (λ b. seen_binding b ≡ binding_at (map seen_bound homes.now) (seen_call call.now) name.now object.now) }
{
    let moves = Moves {
        object: &call.object,
        it: &call.path,
        homes,
    };
    Ok(Binding {
        at: then_name(alloc, &call.path, name)?,
        home: moves.place(alloc, object)?,
    })
}

/// Binds a name to the object to which an expression leads, if it leads to one.
fn push_bound(
    alloc: Global,
    into: &mut Row<Binding>,
    call: &Call,
    homes: &[Bound],
    name: &str,
    typed: &Option<Boxed<Typed>>,
) -> Result<(), AllocError>
    ensures { OnOk result (map seen_binding into.new ≡ map seen_binding into.old ++ bindings_to (map seen_bound homes.now) (seen_call call.now) name.now (seen_part typed.now)) }
{
    match object_at(typed) {
        Some(object) => into.push(bound(alloc, call, homes, name, object)?),
        None => Ok(()),
    }
}

/// The field to which the argument at a place goes.
fn field_of<'p>(
    fields: &FieldsOf<'_, 'p>,
    place: usize,
    name: &Option<Ident>,
) -> Option<TypeField<'p>>
    ensures { option_map seen_field result ≡ assigned_field (fields_in fields.now) place name.now }
{
    match name {
        None => fields.at(place),
        Some(name) => named_field(fields, name.text.as_str()),
    }
}

/// The field of that name; `duration` is none.
fn named_field<'p>(fields: &FieldsOf<'_, 'p>, name: &str) -> Option<TypeField<'p>>
    ensures { option_map seen_field result ≡ arguments_of.named_field (fields_in fields.now) name.now }
{
    if name == "duration" {
        return None;
    }
    fields.named(name)
}

/// Puts the binding that an argument makes at the end, if it makes one.
fn push_argument(
    alloc: Global,
    texts: &ProgramTexts<'_>,
    into: &mut Row<Binding>,
    call: &Call,
    homes: &[Bound],
    scope: &Scope<'_>,
    field: &TypeField<'_>,
    argument: &Argument,
) -> Result<(), AllocError>
    ensures { OnOk result (map seen_binding into.new ≡ map seen_binding into.old ++ bindings_to (map seen_bound homes.now) (seen_call call.now) (seen_field field.now).name.text (typed_in (types_in texts.now).table (seen_scope scope.now) (expr_tree argument.now.value))) }
{
    let known = checked(alloc, texts.types(), scope, &argument.value)?;
    push_bound(
        alloc,
        into,
        call,
        homes,
        field.name.text.as_str(),
        &known.typed,
    )
}

/// Puts the bindings that arguments make at the end.
fn push_arguments(
    alloc: Global,
    texts: &ProgramTexts<'_>,
    into: &mut Row<Binding>,
    call: &Call,
    homes: &[Bound],
    scope: &Scope<'_>,
    fields: &FieldsOf<'_, '_>,
    arguments: &[Argument],
) -> Result<(), AllocError>
    ensures { OnOk result (map seen_binding into.new ≡ map seen_binding into.old ++ arguments_bound (types_in texts.now).table (seen_scope scope.now) (map seen_bound homes.now) (seen_call call.now) (fields_in fields.now) 0 (map argument_tree arguments.now)) }
{
    for (place, argument) in arguments.iter().enumerate() {
        if let Some(field) = field_of(fields, place, &argument.name) {
            push_argument(alloc, texts, into, call, homes, scope, &field, argument)?;
        }
    }
    Ok(())
}

/// Puts the binding of `actor` at the end, if an actor is invoked.
fn push_actor(
    alloc: Global,
    texts: &ProgramTexts<'_>,
    into: &mut Row<Binding>,
    call: &Call,
    callee: Callee<'_>,
) -> Result<(), AllocError>
    ensures { OnOk result (map seen_binding into.new ≡ map seen_binding into.old ++ actor_bound (types_in texts.now).table (seen_call call.now) (seen_callee callee.entry)) }
{
    match callee {
        Callee::Alone(_) | Callee::NoName(_) => Ok(()),
        Callee::Owned { head, names, .. } => {
            let scope = Scope {
                holder: call.holder,
                it: None,
                labels: None,
                way: &[],
            };
            let homes = bounds_of(alloc, call.bindings.as_slice())?;
            let known = actor_checked(alloc, texts.types(), &scope, head, names)?;
            push_bound(alloc, into, call, homes.as_slice(), "actor", &known.typed)
        }
    }
}

/// Puts the bindings that the arguments of an invocation of a type make at the end.
fn push_all_given(
    alloc: Global,
    texts: &ProgramTexts<'_>,
    into: &mut Row<Binding>,
    call: &Call,
    arguments: &[Argument],
    of: TypeId,
) -> Result<(), AllocError>
    ensures { OnOk result (map seen_binding into.new ≡ map seen_binding into.old ++ of_arguments (types_in texts.now) of (argument_binding (types_in texts.now) (seen_call call.now) (here_in (types_in texts.now) (seen_call call.now) (Some (Scopes.It.Of of None)))) 0 (map argument_tree arguments.now)) }
{
    let labels = texts.labels(alloc, call.holder)?;
    let scope = call_scope(labels.table(), call, of);
    let fields = texts.fields_of(of);
    let homes = bounds_of(alloc, call.bindings.as_slice())?;
    push_arguments(
        alloc,
        texts,
        into,
        call,
        homes.as_slice(),
        &scope,
        &fields,
        arguments,
    )
}

/// Puts the bindings that the arguments of an invocation of a type make at the end. Without arguments no scope is made.
fn push_given(
    alloc: Global,
    texts: &ProgramTexts<'_>,
    into: &mut Row<Binding>,
    call: &Call,
    arguments: &[Argument],
    of: TypeId,
) -> Result<(), AllocError>
    ensures { OnOk result (map seen_binding into.new ≡ map seen_binding into.old ++ of_arguments (types_in texts.now) of (argument_binding (types_in texts.now) (seen_call call.now) (here_in (types_in texts.now) (seen_call call.now) (Some (Scopes.It.Of of None)))) 0 (map argument_tree arguments.now)) }
{
    match arguments {
        [] => Ok(()),
        [_argument, ..] => push_all_given(alloc, texts, into, call, arguments, of),
    }
}

/// The bindings that an invocation of a type makes: that of `actor`, if an actor is invoked, and those of arguments.
pub(crate) fn bindings_made(
    alloc: Global,
    texts: &ProgramTexts<'_>,
    call: &Call,
    node: &InvokeNode,
    of: TypeId,
) -> Result<Row<Binding>, AllocError>
    ensures { IfOk result (λ bs. map seen_binding bs ≡ bindings_of (types_in texts.now) (seen_call call.now) node.now.head node.now.names (map argument_tree node.now.arguments) of) }
{
    let mut made = Row::new(alloc);
    let callee = callee_of(&node.head, node.names.as_slice());
    push_actor(alloc, texts, &mut made, call, callee)?;
    push_given(alloc, texts, &mut made, call, node.arguments.as_slice(), of)?;
    Ok(made)
}
