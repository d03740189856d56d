//! The declarations of a program: its types and their names, and the extensions of each.

use crate::TypeId;
use crate::grouping::{extensions_of, type_meant, type_named};
use crate::names::NameIndex;
use crate::own_type::{OwnType, own_types};
use crate::placed::{PlacedDecl, placed_decls};
use name_scope::Program;
use name_scope::dsl_tree::QName;
use std::alloc::{AllocError, Global};
use units_si::osc_base::Row;

/// The declarations of a program in load order, its types and their names, and the extensions of each type.
#[derive(Drop)]
pub struct Declarations<'a> {
    pub placed: Vec<PlacedDecl<'a>>,
    pub types: Vec<OwnType<'a>>,
    pub names: NameIndex,
    pub added: Vec<Row<PlacedDecl<'a>>>,
}

impl<'a> Declarations<'a> {
    ghost use Rattle.std.specs.Prelude.{◌≡◌, ◌<◌, [], length, slice_index_or, option_copied, IfOk};
    ghost use Rattle.type_heads.specs.Table.{named};
    ghost use Rattle.type_heads.specs.DeclaredTypes.{meant, placed, program_of};
    ghost use Rattle.type_heads.specs.Gathered.{AreGathered, all_of, heads_of};

    /// The declarations of a program. More types than a `u32` counts are out of memory.
    pub fn of(alloc: Global, program: &'a Program) -> Result<Declarations<'a>, AllocError>
        ensures gathered { IfOk result AreGathered }
        ensures all { IfOk result (λ d. all_of d ≡ placed (program_of program.now)) }
    {
        let placed = placed_decls(alloc, program)?;
        let all = placed.as_slice();
        let types = own_types(alloc, all)?;
        let declared = types.as_slice();
        let names = NameIndex::of(alloc, declared)?;
        let added = extensions_of(alloc, &names, all, declared.len())?;
        Ok(Declarations {
            placed,
            types,
            names,
            added,
        })
    }

    /// The first type of that name. Only a behaviour that is asked for with its owner has one.
    pub fn named(&self, owner: Option<&str>, name: &str) -> Option<TypeId>
        requires { AreGathered self.now }
        ensures { result ≡ named (heads_of self.now) (option_copied owner.entry) name.now }
    {
        type_named(&self.names, owner, name)
    }

    /// The type that a name with or without an owner means.
    pub fn meant(&self, name: &QName) -> Option<TypeId>
        requires { AreGathered self.now }
        ensures { result ≡ meant (heads_of self.now) name.now }
    {
        type_meant(&self.names, name)
    }

    /// The extensions of a type.
    pub fn extensions(&self, of: TypeId) -> &[PlacedDecl<'a>]
        requires { of < length self.now.added.items }
        ensures { result.now ≡ slice_index_or self.now.added.items of [] }
    {
        self.added[of.0 as usize].as_slice()
    }
}
