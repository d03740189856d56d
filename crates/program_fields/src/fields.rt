//! Fields and `do`s of types, with their trees.

use dsl_tree::osc_base::Place;
use dsl_tree::{FieldDecl, Ident, Phase};
use type_heads::TypeId;

/// A field of a type: its name, its declaration, the number of the type in whose text that stands, and the conditional
/// subtypes that it is under, outermost first.
#[derive(Clone, Copy)]
pub struct TypeField<'a> {
    pub name: &'a Ident,
    pub decl: &'a FieldDecl,
    pub holder: u32,
    pub under: &'a [TypeId],
}

/// The `do` of a scenario: the number of the type in whose text it stands, its place, its phase, and the conditional
/// subtypes that it is under, outermost first.
#[derive(Clone, Copy)]
pub struct TypeDo<'a> {
    pub holder: u32,
    pub place: Place,
    pub phase: &'a Phase,
    pub under: &'a [TypeId],
}
