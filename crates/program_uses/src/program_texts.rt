//! What a program declares, type by type, with its trees.

ghost use Rattle.std.specs.Prelude.{◌≡◌, None, slice_index_or};
ghost use Rattle.program_uses.specs.SeenTexts.{bare_body};

use expr_nodes::TypeId;
use osc_base::Place;
use program_fields::{ProgramFields, TypeDo};
use type_members::{Body, WrittenMember};

/// The place of what no file declares.
const NOWHERE: Place = Place {
    file: 0,
    line: 0,
    column: 0,
    token: 0,
};

/// The fields, the `do` and the body of each type.
#[derive(Drop)]
pub(crate) struct ProgramTexts<'a> {
    pub library: Option<u32>,
    pub fields: ProgramFields<'a>,
    pub dos: Vec<Option<TypeDo<'a>>>,
    pub bodies: &'a [Body<'a>],
}

impl<'a> ProgramTexts<'a> {
    /// The `do` of a type, its own or an inherited one.
    pub(crate) fn the_do(&self, of: TypeId) -> Option<TypeDo<'a>>
        ensures { result ≡ slice_index_or self.now.dos.items of None }
    {
        match self.dos.get(of.0 as usize) {
            Some(found) => *found,
            None => None,
        }
    }

    /// The place of the name of a type.
    pub(crate) fn place(&self, of: TypeId) -> Place
        ensures { result ≡ (slice_index_or self.now.bodies.now of bare_body).place }
    {
        match self.bodies.get(of.0 as usize) {
            Some(body) => body.place,
            None => NOWHERE,
        }
    }

    /// The members of the declaration of a type.
    pub(crate) fn own(&self, of: TypeId) -> &[WrittenMember<'a>]
        ensures { result.now ≡ (slice_index_or self.now.bodies.now of bare_body).own }
    {
        match self.bodies.get(of.0 as usize) {
            Some(body) => body.own.as_slice(),
            None => &[],
        }
    }

    /// The members of the extensions of a type.
    pub(crate) fn more(&self, of: TypeId) -> &[WrittenMember<'a>]
        ensures { result.now ≡ (slice_index_or self.now.bodies.now of bare_body).more }
    {
        match self.bodies.get(of.0 as usize) {
            Some(body) => body.more.as_slice(),
            None => &[],
        }
    }
}
