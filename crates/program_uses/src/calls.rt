//! The faults of invocations: of what they call, of their arguments, and of their `with:`.

ghost use Rattle.std.specs.Prelude.{◌≡◌, ◌||◌, [], Some, None, false, flat_map, is_none, map, slice_index_or, IfOk};
ghost use Rattle.std.specs.Option.{option_map_or};
ghost use Rattle.osc_base.specs.FaultRows.{first_from};
ghost use Rattle.dsl_tree.specs.PhaseTree.{ArgumentTree};
ghost use Rattle.dsl_tree.specs.Views.{argument_tree, part_tree};
ghost use Rattle.expr_nodes.specs.type_heads.Members.{fields_among};
ghost use Rattle.expr_nodes.specs.type_heads.Types.{Types as TypesOf};
ghost use Rattle.program_fields.specs.Tables.{lists_in};
ghost use Rattle.expr_nodes.specs.Parts.{of_one};
ghost use Rattle.expr_nodes.specs.Seen.{seen_part};
ghost use Rattle.expr_nodes.specs.SeenNames.{seen_it, seen_scope};
ghost use Rattle.expr_nodes.specs.Typing.{expr_rows, typed};
ghost use Rattle.program_calls.specs.composition.Calls.{Callee as CalleeOf, actor_type as actor_in, callee, owned_behaviour as owned_in, without_labels};
ghost use Rattle.program_calls.specs.composition.Uses.{begins_with_label as begins_so, call_rows, callee_rows, it_made as made_it, part_rows};
ghost use Rattle.program_calls.specs.SeenCallees.{actor_tree, head_tree};
ghost use Rattle.program_uses.specs.ArgumentRows.{arguments_in};
ghost use Rattle.program_uses.specs.SeenTexts.{Tells};
ghost use Rattle.program_uses.specs.TableTypes.{of_table};

use crate::arguments::with_arguments;
use crate::modifiers::with_modifier;
use crate::program_texts::ProgramTexts;
use crate::rules::{with_expr, with_known, with_rule};
use dsl_tree::{Argument, Ident, InvokeHead, InvokePart};
use expr_nodes::{FieldType, It, Scope, TypeId, Typed, Types};
use name_scope::with_fault;
use osc_base::{Boxed, Fault, FaultCode};
use program_calls::{
    Callee, actor_checked, actor_type, begins_with_label_at, behaviour_named, callee_of,
    head_place, owned_behaviour, resolved_actor,
};
use std::alloc::{AllocError, Global};

/// Whether a part is something else than an object of an actor.
fn is_no_actor(types: &Types, typed: &Option<Boxed<Typed>>) -> bool
    ensures { result ≡ of_one (seen_part typed.now) (λ x. is_none (actor_in types.now.table.heads (Some x))) }
{
    match typed {
        Some(_) => actor_type(types, typed).is_none(),
        None => false,
    }
}

/// Whether the actor is known and owns no behaviour of that name.
fn lacks_behaviour(
    alloc: Global,
    types: &Types,
    holder: TypeId,
    head: &InvokeHead,
    names: &[Ident],
    name: &Ident,
) -> Result<bool, AllocError>
    ensures { IfOk result (λ b. b ≡ option_map_or (λ a. is_none (owned_in types.now.table.heads name.now.text a)) (actor_in types.now.table.heads (typed types.now.table (without_labels holder) (actor_tree head.now names.now))) false) }
{
    match resolved_actor(alloc, types, holder, head, names)? {
        Some(actor) => { Ok(owned_behaviour(types, name.text.as_str(), actor).is_none()) }
        None => Ok(false),
    }
}

/// Whether a path begins with a label, or is known and leads to no actor.
fn is_wrong_path(
    types: &Types,
    scope: &Scope<'_>,
    head: &InvokeHead,
    typed: &Option<Boxed<Typed>>,
) -> bool
    ensures { result ≡ (begins_so types.now.table (seen_scope scope.now) (head_tree head.now) || of_one (seen_part typed.now) (λ x. is_none (actor_in types.now.table.heads (Some x)))) }
{
    begins_with_label_at(types, scope, head) || is_no_actor(types, typed)
}

/// Faults of the path to an actor, and of the name of one of its behaviours.
fn with_owned(
    alloc: Global,
    types: &Types,
    scope: &Scope<'_>,
    first: Option<Fault>,
    head: &InvokeHead,
    names: &[Ident],
    name: &Ident,
) -> Result<Option<Fault>, AllocError>
    ensures { IfOk result (λ f. f ≡ first_from first (callee_rows (of_table None types.now.table) (seen_scope scope.now) (CalleeOf.Owned (actor_tree head.now names.now) name.now))) }
{
    let is_unknown = lacks_behaviour(alloc, types, scope.holder, head, names, name)?;
    let known = actor_checked(alloc, types, scope, head, names)?;
    let is_wrong = is_wrong_path(types, scope, head, &known.typed);
    let own = with_fault(first, head_place(head), FaultCode::WrongKind, is_wrong);
    let named = with_fault(own, name.place, FaultCode::Unknown, is_unknown);
    Ok(with_known(named, &known))
}

/// Faults of what is written before the brackets of an invocation.
pub(crate) fn with_callee(
    alloc: Global,
    types: &Types,
    scope: &Scope<'_>,
    first: Option<Fault>,
    head: &InvokeHead,
    names: &[Ident],
) -> Result<Option<Fault>, AllocError>
    ensures { IfOk result (λ f. f ≡ first_from first (callee_rows (of_table None types.now.table) (seen_scope scope.now) (callee head.now names.now))) }
{
    match callee_of(head, names) {
        Callee::Alone(name) => {
            let is_unknown = behaviour_named(types, name.text.as_str()).is_none();
            Ok(with_fault(first, name.place, FaultCode::Unknown, is_unknown))
        }
        Callee::Owned { head, names, name } => {
            with_owned(alloc, types, scope, first, head, names, name)
        }
        Callee::NoName(place) => Ok(with_fault(first, place, FaultCode::Unknown, true)),
    }
}

/// Faults of arguments of an invocation that isn't resolved.
fn with_unresolved(
    alloc: Global,
    types: &Types,
    scope: &Scope<'_>,
    first: Option<Fault>,
    arguments: &[Argument],
) -> Result<Option<Fault>, AllocError>
    ensures { IfOk result (λ f. f ≡ first_from first (flat_map (λ (a : ArgumentTree). expr_rows types.now.table (seen_scope scope.now) a.value) (map argument_tree arguments.now))) }
{
    let mut fault = first;
    for argument in arguments {
        fault = with_expr(alloc, types, scope, fault, &argument.value)?;
    }
    Ok(fault)
}

/// Faults of the arguments of an invocation of a type.
fn with_resolved<'a>(
    alloc: Global,
    types: &Types,
    texts: &ProgramTexts<'a>,
    scope: &Scope<'_>,
    first: Option<Fault>,
    of: TypeId,
    arguments: &'a [Argument],
) -> Result<Option<Fault>, AllocError>
    ensures { IfOk result (λ f. f ≡ first_from first (arguments_in types.now.table (seen_scope scope.now) (fields_among (slice_index_or (lists_in texts.now.fields) of [])) [] 0 (map argument_tree arguments.entry.now))) }
{
    let fields = texts.fields.of(of);
    with_arguments(alloc, types, scope, first, &fields, arguments)
}

/// Faults of the arguments of an invocation.
pub(crate) fn with_call<'a>(
    alloc: Global,
    types: &Types,
    texts: &ProgramTexts<'a>,
    scope: &Scope<'_>,
    first: Option<Fault>,
    of: &Option<TypeId>,
    arguments: &'a [Argument],
) -> Result<Option<Fault>, AllocError>
    ensures { IfOk result (λ f. (ts : TypesOf) → Tells ts types.now texts.now → f ≡ first_from first (call_rows ts (seen_scope scope.now) of.now (map argument_tree arguments.entry.now))) }
{
    match of {
        Some(of) => with_resolved(alloc, types, texts, scope, first, *of, arguments),
        None => with_unresolved(alloc, types, scope, first, arguments),
    }
}

/// What `it` is in the `with:` of an invocation.
pub(crate) fn it_made(of: &Option<TypeId>) -> It
    ensures { seen_it result ≡ made_it of.now }
{
    match of {
        Some(of) => It::Of(FieldType {
            of: *of,
            length: None,
        }),
        None => It::Unresolved,
    }
}

/// Faults of a rule or a modifier in the `with:` of an invocation of that type.
fn with_part(
    alloc: Global,
    types: &Types,
    library: Option<u32>,
    scope: &Scope<'_>,
    first: Option<Fault>,
    of: &Option<TypeId>,
    part: &InvokePart,
) -> Result<Option<Fault>, AllocError>
    ensures { IfOk result (λ f. f ≡ first_from first (part_rows (of_table library types.now.table) (seen_scope scope.now) of.now (part_tree part.now))) }
{
    match part {
        InvokePart::Rule(rule) => with_rule(alloc, types, scope, first, rule),
        InvokePart::Modifier(modifier) => {
            with_modifier(alloc, types, library, scope, first, of, modifier)
        }
    }
}

/// Faults of the `with:` of an invocation of that type.
pub(crate) fn with_parts(
    alloc: Global,
    types: &Types,
    library: Option<u32>,
    scope: &Scope<'_>,
    first: Option<Fault>,
    of: &Option<TypeId>,
    parts: &[InvokePart],
) -> Result<Option<Fault>, AllocError>
    ensures { IfOk result (λ f. f ≡ first_from first (flat_map (part_rows (of_table library types.now.table) (seen_scope scope.now) of.now) (map part_tree parts.now))) }
{
    let mut fault = first;
    for part in parts {
        fault = with_part(alloc, types, library, scope, fault, of, part)?;
    }
    Ok(fault)
}
