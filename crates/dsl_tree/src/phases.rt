use crate::{Expr, Ident, RuleDecl};
use osc_base::{Place, Row};

/// An argument, with its name if one is written. No argument without a name stands after one
/// with a name.
#[derive(Drop)]
pub struct Argument {
    pub name: Option<Ident>,
    pub value: Expr,
}

/// A phase of a behaviour.
#[derive(Drop)]
#[cycle(phase_types)]
pub enum Phase {
    Comp(CompNode),
    Invoke(InvokeNode),
    Wait(WaitNode),
}

/// The words with which a composition begins.
#[derive(Clone, Copy, PartialEq, Eq)]
pub enum CompKind {
    Serial,
    Parallel,
    OneOf,
}

/// `LABEL: serial(ARGUMENTS):` and a block of one phase or more. The place is that of the word after
/// the label. Empty `arguments` stand for no brackets.
#[derive(Drop)]
#[cycle(phase_types)]
pub struct CompNode {
    pub label: Option<Ident>,
    pub place: Place,
    pub kind: CompKind,
    pub arguments: Row<Argument>,
    pub members: Row<Phase>,
}

/// What an invocation begins with. `Actor` holds the place of its word.
#[derive(Drop)]
pub enum InvokeHead {
    Name(Ident),
    Actor(Place),
}

/// `NAME(ARGUMENTS)` below an invocation or in a modifier.
#[derive(Drop)]
pub struct ModifierNode {
    pub name: Ident,
    pub arguments: Row<Argument>,
}

/// A line below an invocation.
#[derive(Drop)]
pub enum InvokePart {
    Rule(RuleDecl),
    Modifier(ModifierNode),
}

/// `LABEL: HEAD.NAMES(ARGUMENTS) with:` and a block of parts. Empty `parts` stand for a line without
/// a block.
#[derive(Drop)]
pub struct InvokeNode {
    pub label: Option<Ident>,
    pub head: InvokeHead,
    pub names: Row<Ident>,
    pub arguments: Row<Argument>,
    pub parts: Row<InvokePart>,
}

/// `LABEL: wait elapsed(ELAPSED)`. The place is that of `wait`.
#[derive(Drop)]
pub struct WaitNode {
    pub label: Option<Ident>,
    pub place: Place,
    pub elapsed: Expr,
}
