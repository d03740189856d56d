use crate::{Digits, Ident};
use osc_base::{Boxed, Place, Row, Text};

/// The signs of a relation: `==`, `!=`, `<`, `<=`, `>`, `>=` and `in`.
#[derive(Clone, Copy, PartialEq, Eq)]
pub enum RelationSign {
    Equal,
    Differ,
    Below,
    AtMost,
    Above,
    AtLeast,
    Within,
}

/// The operators that stand in rows: `or`, `and`, `+`, `-`, `*` and `/`.
#[derive(Clone, Copy, PartialEq, Eq)]
pub enum Operator {
    Or,
    And,
    Plus,
    Dash,
    Star,
    Slash,
}

/// An operator and the part after it. The place is that of the operator.
#[derive(Drop)]
#[cycle(expr_types)]
pub struct Further {
    pub place: Place,
    pub operator: Operator,
    pub part: Expr,
}

/// `.NAME` or `[INDEX]`. The place of `Index` is that of its bracket.
#[derive(Drop)]
#[cycle(expr_types)]
pub enum Suffix {
    Dot(Ident),
    Index { place: Place, index: Expr },
}

/// An expression.
///
/// The place of `Implies` and `Relation` is that of the operator, and each other place that of the
/// expression's first token. The rows `rest` of `Or`, `And`, `Sum` and `Product` hold one part or
/// more, with the node's own operators. `suffixes` has one suffix or more, and the last one is a name
/// in a `Dot` and an index in an `Index`. `Listed` has one item or more. `Chars` is a string.
#[derive(Drop)]
#[cycle(expr_types)]
pub enum Expr {
    Implies {
        place: Place,
        left: Boxed<Expr>,
        right: Boxed<Expr>,
    },
    Or {
        first: Boxed<Expr>,
        rest: Row<Further>,
    },
    And {
        first: Boxed<Expr>,
        rest: Row<Further>,
    },
    Not {
        place: Place,
        part: Boxed<Expr>,
    },
    Relation {
        place: Place,
        sign: RelationSign,
        left: Boxed<Expr>,
        right: Boxed<Expr>,
    },
    Sum {
        first: Boxed<Expr>,
        rest: Row<Further>,
    },
    Product {
        first: Boxed<Expr>,
        rest: Row<Further>,
    },
    Minus {
        place: Place,
        part: Boxed<Expr>,
    },
    Dot {
        head: Boxed<Expr>,
        suffixes: Row<Suffix>,
    },
    Index {
        head: Boxed<Expr>,
        suffixes: Row<Suffix>,
    },
    Number(Digits),
    Physical {
        number: Digits,
        unit: Text,
    },
    Chars {
        place: Place,
        text: Text,
    },
    Truth {
        place: Place,
        value: bool,
    },
    It(Place),
    Actor(Place),
    Name(Ident),
    EnumName {
        of: Ident,
        member: Ident,
    },
    Group {
        place: Place,
        inner: Boxed<Expr>,
    },
    Span {
        place: Place,
        low: Boxed<Expr>,
        high: Boxed<Expr>,
    },
    Listed {
        place: Place,
        items: Row<Expr>,
    },
    RangeCall {
        place: Place,
        low: Boxed<Expr>,
        high: Boxed<Expr>,
    },
}
