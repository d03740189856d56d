//! Typed expressions.

ghost use Rattle.std.specs.Prelude.{◌≡◌, map, IfOk};
ghost use Rattle.expr_nodes.specs.Typed.{info as held_info};
ghost use Rattle.expr_nodes.specs.Parts.{is_scalar as one_value};
ghost use Rattle.expr_nodes.specs.Fits.{is_read as read_value};
ghost use Rattle.expr_nodes.specs.Seen.{seen, seen_info, reached};

use crate::size::Size;
use crate::{Compare, ValueKind};
use std::alloc::{AllocError, Global};
use type_model::{Boxed, Fraction, Path, Place, Row};

/// Where an expression begins, its kind, and its scale and reach. The kind of a range or list is that of its parts.
#[derive(Debug, Clone, Copy)]
pub struct Info {
    pub place: Place,
    pub kind: ValueKind,
    pub size: Size,
}

/// How the parts of a row are joined.
#[derive(Debug, Clone, Copy, PartialEq, Eq)]
pub enum Join {
    Sum,
    Times,
    And,
    Or,
}

/// A part of a row. `info` is that of the row up to this part.
#[derive(Drop)]
#[cycle(typed_types)]
pub struct Earlier {
    pub info: Info,
    pub part: Typed,
}

/// A typed expression.
///
/// A difference is a sum with a `Minus`, and a quotient a product with a constant. `Within` is `in`, and has a `Span` or
/// a `Listed` on its right. The parts of a `Joined` are `first`, those of `earlier`, and `last`. They are grouped from
/// the left.
#[derive(Drop)]
#[cycle(typed_types)]
pub enum Typed {
    /// A constant.
    Constant {
        info: Info,
        number: Fraction,
    },
    /// What is held at a path, over `per`, which is 1 or 1000.
    Read {
        info: Info,
        path: Path,
        per: u32,
    },
    /// A whole object or phase.
    Whole {
        info: Info,
        path: Path,
    },
    /// The elements of a list field, or the items of a written list.
    Listed {
        info: Info,
        is_field: bool,
        items: Row<Typed>,
    },
    /// A range.
    Span {
        info: Info,
        low: Boxed<Typed>,
        high: Boxed<Typed>,
    },
    Minus {
        info: Info,
        part: Boxed<Typed>,
    },
    Not {
        info: Info,
        part: Boxed<Typed>,
    },
    /// A row of parts.
    Joined {
        info: Info,
        join: Join,
        first: Boxed<Typed>,
        earlier: Row<Earlier>,
        last: Boxed<Typed>,
    },
    Implies {
        info: Info,
        left: Boxed<Typed>,
        right: Boxed<Typed>,
    },
    Relation {
        info: Info,
        sign: Compare,
        left: Boxed<Typed>,
        right: Boxed<Typed>,
    },
    Within {
        info: Info,
        left: Boxed<Typed>,
        right: Boxed<Typed>,
    },
}

impl Typed {
    /// What the expression holds of itself.
    pub fn info(&self) -> Info
        ensures { seen_info result ≡ held_info (seen self.now) }
    {
        match self {
            Typed::Constant { info, .. }
            | Typed::Read { info, .. }
            | Typed::Whole { info, .. }
            | Typed::Listed { info, .. }
            | Typed::Span { info, .. }
            | Typed::Minus { info, .. }
            | Typed::Not { info, .. }
            | Typed::Joined { info, .. }
            | Typed::Implies { info, .. }
            | Typed::Relation { info, .. }
            | Typed::Within { info, .. } => *info,
        }
    }

    /// One value: no whole object or phase, no list and no range.
    pub fn is_scalar(&self) -> bool
        ensures { result ≡ one_value (seen self.now) }
    {
        match self {
            Typed::Whole { .. } | Typed::Listed { .. } | Typed::Span { .. } => false,
            Typed::Constant { .. }
            | Typed::Read { .. }
            | Typed::Minus { .. }
            | Typed::Not { .. }
            | Typed::Joined { .. }
            | Typed::Implies { .. }
            | Typed::Relation { .. }
            | Typed::Within { .. } => true,
        }
    }

    /// One value that is read at a path.
    pub fn is_read(&self) -> bool
        ensures { result ≡ read_value (seen self.now) }
    {
        match self {
            Typed::Read { .. } => true,
            Typed::Constant { .. }
            | Typed::Whole { .. }
            | Typed::Listed { .. }
            | Typed::Span { .. }
            | Typed::Minus { .. }
            | Typed::Not { .. }
            | Typed::Joined { .. }
            | Typed::Implies { .. }
            | Typed::Relation { .. }
            | Typed::Within { .. } => false,
        }
    }

    /// An equal expression.
    #[cycle(copies)]
    pub fn copy(&self, alloc: Global) -> Result<Typed, AllocError>
        ensures { IfOk result (λ t. seen t ≡ seen self.now) }
    {
        match self {
            Typed::Constant { info, number } => Ok(Typed::Constant {
                info: *info,
                number: *number,
            }),
            Typed::Read { info, path, per } => Ok(Typed::Read {
                info: *info,
                path: path.copy(alloc)?,
                per: *per,
            }),
            Typed::Whole { info, path } => Ok(Typed::Whole {
                info: *info,
                path: path.copy(alloc)?,
            }),
            Typed::Listed {
                info,
                is_field,
                items,
            } => Ok(Typed::Listed {
                info: *info,
                is_field: *is_field,
                items: copy_items(alloc, items.as_slice())?,
            }),
            Typed::Span { info, low, high } => Ok(Typed::Span {
                info: *info,
                low: copy_boxed(alloc, low.get())?,
                high: copy_boxed(alloc, high.get())?,
            }),
            Typed::Minus { info, part } => Ok(Typed::Minus {
                info: *info,
                part: copy_boxed(alloc, part.get())?,
            }),
            Typed::Not { info, part } => Ok(Typed::Not {
                info: *info,
                part: copy_boxed(alloc, part.get())?,
            }),
            Typed::Joined {
                info,
                join,
                first,
                earlier,
                last,
            } => Ok(Typed::Joined {
                info: *info,
                join: *join,
                first: copy_boxed(alloc, first.get())?,
                earlier: copy_earlier(alloc, earlier.as_slice())?,
                last: copy_boxed(alloc, last.get())?,
            }),
            Typed::Implies { info, left, right } => Ok(Typed::Implies {
                info: *info,
                left: copy_boxed(alloc, left.get())?,
                right: copy_boxed(alloc, right.get())?,
            }),
            Typed::Relation {
                info,
                sign,
                left,
                right,
            } => Ok(Typed::Relation {
                info: *info,
                sign: *sign,
                left: copy_boxed(alloc, left.get())?,
                right: copy_boxed(alloc, right.get())?,
            }),
            Typed::Within { info, left, right } => Ok(Typed::Within {
                info: *info,
                left: copy_boxed(alloc, left.get())?,
                right: copy_boxed(alloc, right.get())?,
            }),
        }
    }
}

#[cycle(copies)]
fn copy_boxed(alloc: Global, part: &Typed) -> Result<Boxed<Typed>, AllocError>
    ensures { IfOk result (λ t. seen t ≡ seen part.now) }
{
    Boxed::new(alloc, part.copy(alloc)?)
}

#[cycle(copies)]
fn copy_items(alloc: Global, items: &[Typed]) -> Result<Row<Typed>, AllocError>
    ensures { IfOk result (λ ts. map seen ts ≡ map seen items.now) }
{
    let mut copies = Row::new(alloc);
    'items: for item in items {
        copies.push(item.copy(alloc)?)?;
    }
    Ok(copies)
}

#[cycle(copies)]
fn copy_earlier(alloc: Global, parts: &[Earlier]) -> Result<Row<Earlier>, AllocError>
    ensures { IfOk result (λ es. map reached es ≡ map reached parts.now) }
{
    let mut copies = Row::new(alloc);
    'parts: for earlier in parts {
        copies.push(Earlier {
            info: earlier.info,
            part: earlier.part.copy(alloc)?,
        })?;
    }
    Ok(copies)
}
