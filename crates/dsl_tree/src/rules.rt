use crate::{Expr, Ident, Suffix};
use osc_base::{Place, Row};

/// The word after `keep(`, or none.
#[derive(Clone, Copy, PartialEq, Eq)]
pub enum KeepKind {
    Plain,
    Hard,
    Default,
}

/// `keep(EXPR)` or `remove_default(PATH)`. The place is that of the first word.
#[derive(Drop)]
pub enum RuleDecl {
    Keep {
        place: Place,
        kind: KeepKind,
        expr: Expr,
    },
    Remove {
        place: Place,
        path: PathNode,
    },
}

/// What a path begins with. `It` and `Actor` hold the place of their word.
#[derive(Drop)]
pub enum PathHead {
    Name(Ident),
    It(Place),
    Actor(Place),
}

/// A path: its head, and any names and indexes after it.
#[derive(Drop)]
pub struct PathNode {
    pub head: PathHead,
    pub suffixes: Row<Suffix>,
}
