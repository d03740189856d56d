//! Where an expression stands: what its names mean.

use crate::{LabelTable, Turn};
use type_model::{FieldType, TypeId};

/// What `it` stands for.
#[derive(Debug, Clone, Copy)]
pub enum It {
    /// A field or an invoked object, with its type.
    Of(FieldType),
    /// An object of an invocation that isn't resolved.
    Unresolved,
}

/// The type in whose declaration or extension an expression is written, what `it` stands for, the labels of the type's
/// `do`, and the way to the expression in the `do`, from which they are seen. A scope may have no labels.
#[derive(Drop)]
pub struct Scope<'a> {
    pub holder: TypeId,
    pub it: Option<It>,
    pub labels: Option<&'a LabelTable>,
    pub way: &'a [Turn],
}
