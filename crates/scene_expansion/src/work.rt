//! What is left to lay out while a scenario is expanded.

use dsl_tree::{CompNode, InvokeNode, WaitNode};
use osc_base::{Path, Row};
use program_calls::{Binding, Guard, Turn, TypeId, ValueRange};

/// A phase of an object: the object and its bindings, the type that holds the text of its `do`, the turns on the
/// phase's way, the phase's path from the named scenario, and the conditions under which it is there.
#[derive(Drop)]
pub struct Call {
    pub object: Path,
    pub bindings: Row<Binding>,
    pub holder: TypeId,
    pub way: Row<Turn>,
    pub path: Path,
    pub guards: Row<Guard>,
}

/// An object, a value or a phase that isn't laid out yet.
#[derive(Drop)]
pub enum Work<'p> {
    /// An object of a type, with the bindings of its parameters. In objects in it are at most `steps` objects in one
    /// another.
    Object {
        steps: u32,
        path: Path,
        of: TypeId,
        guards: Row<Guard>,
        bindings: Row<Binding>,
    },
    /// A value.
    Value {
        path: Path,
        guards: Row<Guard>,
        range: ValueRange,
    },
    /// A composition.
    Comp {
        call: Call,
        node: &'p CompNode,
    },
    /// An invocation of a type, with the bindings that it makes.
    Invoke {
        steps: u32,
        call: Call,
        node: &'p InvokeNode,
        of: TypeId,
        bindings: Row<Binding>,
    },
    /// A `wait`.
    Wait {
        call: Call,
        node: &'p WaitNode,
    },
}
