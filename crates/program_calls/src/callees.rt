//! What an invocation calls.

ghost use Rattle.std.specs.Prelude.{◌≡◌, None, Some, cond};
ghost use Rattle.composition.specs.type_heads.Shown.{kind_form};
ghost use Rattle.composition.specs.type_heads.Table.{form, is_actor as of_actor, is_behaviour as of_behaviour};
ghost use Rattle.composition.specs.Calls.{behaviour_named as behaviour_of, callee as called};
ghost use Rattle.program_calls.specs.SeenCallees.{seen_callee};

use dsl_tree::{Ident, InvokeHead};
use expr_nodes::{TypeId, TypeKind, Types};
use osc_base::Place;

/// What is written before the brackets of an invocation: a behaviour's name alone, the path to an actor and the name of
/// one of its behaviours, or the word `actor` alone, which names nothing.
#[derive(Clone, Copy)]
pub enum Callee<'a> {
    Alone(&'a Ident),
    Owned {
        head: &'a InvokeHead,
        names: &'a [Ident],
        name: &'a Ident,
    },
    NoName(Place),
}

/// What an invocation calls, by its head and the names after it.
pub fn callee_of<'a>(head: &'a InvokeHead, names: &'a [Ident]) -> Callee<'a>
    ensures { seen_callee result ≡ called head.entry.now names.entry.now }
{
    match names {
        [] => match head {
            InvokeHead::Name(name) => Callee::Alone(name),
            InvokeHead::Actor(place) => Callee::NoName(*place),
        },
        [names @ .., name] => Callee::Owned { head, names, name },
    }
}

fn is_behaviour(kind: TypeKind) -> bool
    ensures { result ≡ of_behaviour (kind_form kind) }
{
    match kind {
        TypeKind::Action | TypeKind::Scenario => true,
        TypeKind::Int
        | TypeKind::Uint
        | TypeKind::Float
        | TypeKind::Bool
        | TypeKind::Chars
        | TypeKind::Physical(_)
        | TypeKind::Enum
        | TypeKind::Struct
        | TypeKind::Actor => false,
    }
}

fn is_actor(kind: TypeKind) -> bool
    ensures { result ≡ of_actor (kind_form kind) }
{
    match kind {
        TypeKind::Actor => true,
        TypeKind::Int
        | TypeKind::Uint
        | TypeKind::Float
        | TypeKind::Bool
        | TypeKind::Chars
        | TypeKind::Physical(_)
        | TypeKind::Enum
        | TypeKind::Struct
        | TypeKind::Action
        | TypeKind::Scenario => false,
    }
}

/// The type, if it is an actor.
pub fn actor_of(types: &Types, of: TypeId) -> Option<TypeId>
    ensures { result ≡ cond (of_actor (form types.now.table.heads of)) (Some of) None }
{
    if is_actor(types.kind(of)) {
        Some(of)
    } else {
        None
    }
}

/// The action or scenario without an owner that has the name.
pub fn behaviour_named(types: &Types, name: &str) -> Option<TypeId>
    ensures { result ≡ behaviour_of types.now.table.heads name.now }
{
    let found = types.named(None, name)?;
    if is_behaviour(types.kind(found)) {
        Some(found)
    } else {
        None
    }
}
