//! The actor whose behaviour an invocation calls, and what it calls.

ghost use Rattle.std.specs.Prelude.{◌≡◌, IfOk};
ghost use Rattle.composition.specs.Calls.{actor_type as actor_in, without_labels as scope_without};
ghost use Rattle.expr_nodes.specs.Checks.{IsChecked};
ghost use Rattle.expr_nodes.specs.Seen.{seen_part};
ghost use Rattle.expr_nodes.specs.SeenNames.{seen_scope};
ghost use Rattle.expr_nodes.specs.Typing.{first as first_in, typed as typed_in};
ghost use Rattle.program_calls.specs.SeenCallees.{actor_tree, called_in, head_tree, seen_callee};

use crate::callees::{Callee, actor_of, behaviour_named};
use crate::owned::owned_behaviour;
use dsl_tree::{Ident, InvokeHead};
use expr_nodes::{Checked, Scope, TypeId, Typed, Types};
use expr_typing::meanings::name;
use expr_typing::others::actor;
use expr_typing::steps::pointed;
use osc_base::{Boxed, Place};
use std::alloc::{AllocError, Global};

/// The head of an invocation, as an expression.
fn head_checked(
    alloc: Global,
    types: &Types,
    scope: &Scope<'_>,
    head: &InvokeHead,
) -> Result<Checked, AllocError>
    ensures { IfOk result (λ c. IsChecked types.now.table (seen_scope scope.now) (head_tree head.now) c) }
{
    match head {
        InvokeHead::Name(first) => name(alloc, types, scope, first),
        InvokeHead::Actor(place) => actor(alloc, types, scope, *place),
    }
}

/// The path to an actor: its first fault, and its typed form.
pub fn actor_checked(
    alloc: Global,
    types: &Types,
    scope: &Scope<'_>,
    head: &InvokeHead,
    names: &[Ident],
) -> Result<Checked, AllocError>
    ensures { IfOk result (λ c. IsChecked types.now.table (seen_scope scope.now) (actor_tree head.now names.now) c) }
{
    let mut checked = head_checked(alloc, types, scope, head)?;
    for name in names {
        checked = pointed(alloc, types, checked, name)?;
    }
    Ok(checked)
}

/// The actor type of the object to which a path leads.
pub fn actor_type(types: &Types, typed: &Option<Boxed<Typed>>) -> Option<TypeId>
    ensures { result ≡ actor_in types.now.table.heads (seen_part typed.now) }
{
    match typed {
        Some(typed) => actor_of(types, typed.get().info().kind.object_type()?),
        None => None,
    }
}

/// The place of the first token of a path to an actor.
pub fn head_place(head: &InvokeHead) -> Place
    ensures { result ≡ first_in (head_tree head.now) }
{
    match head {
        InvokeHead::Name(name) => name.place,
        InvokeHead::Actor(place) => *place,
    }
}

/// The actor type to which a path in the text of a type leads.
pub fn resolved_actor(
    alloc: Global,
    types: &Types,
    holder: TypeId,
    head: &InvokeHead,
    names: &[Ident],
) -> Result<Option<TypeId>, AllocError>
    ensures { IfOk result (λ o. o ≡ actor_in types.now.table.heads (typed_in types.now.table (scope_without holder) (actor_tree head.now names.now))) }
{
    let scope = Scope {
        holder,
        it: None,
        labels: None,
        way: &[],
    };
    let path = actor_checked(alloc, types, &scope, head, names)?;
    Ok(actor_type(types, &path.typed))
}

/// The action or scenario that is called in the text of a type.
pub fn called(
    alloc: Global,
    types: &Types,
    holder: TypeId,
    callee: Callee<'_>,
) -> Result<Option<TypeId>, AllocError>
    ensures { IfOk result (λ of. of ≡ called_in types.now.table holder (seen_callee callee.entry)) }
{
    match callee {
        Callee::Alone(name) => Ok(behaviour_named(types, name.text.as_str())),
        Callee::Owned { head, names, name } => {
            match resolved_actor(alloc, types, holder, head, names)? {
                Some(actor) => Ok(owned_behaviour(types, name.text.as_str(), actor)),
                None => Ok(None),
            }
        }
        Callee::NoName(_) => Ok(None),
    }
}
