ghost use Rattle.std.specs.Prelude.{◌≡◌, ◌≤◌, ◌<◌, ◌^◌, length, pos, option_copied, option_map, IfOk};
ghost use Rattle.type_heads.specs.Seen.{seen_form};
ghost use Rattle.type_heads.specs.Shown.{hit_of};
ghost use Rattle.type_heads.specs.Members.{has};
ghost use Rattle.type_heads.specs.Table.{base, bases, enum_number, enums_with, form, head, is_kind_of as is_kind, named, owner};

use crate::ancestors::{Ancestors, base_in};
use crate::declarations::Declarations;
use crate::enum_index::EnumIndex;
use crate::heads_build::own_heads;
use crate::lines::is_on_line;
use crate::names::NameIndex;
use crate::{EnumHit, Form, Head, TypeId};
use name_scope::Program;
use std::alloc::{AllocError, Global};
use std::marker::Model;

/// The heads of all types. Contracts see them as the list of the heads.
#[derive(Drop)]
pub struct Heads {
    entries: Vec<Head>,
    names: NameIndex,
    members: EnumIndex,
    ancestors: Option<Ancestors>,
}

impl Model for Heads {
    ghost use Rattle.std.specs.Prelude.{◌<◌, ◌^◌, List, length};
    ghost use Rattle.type_heads.specs.Table.{TypeHead};

    ghost Value = { List TypeHead };

    ghost use Rattle.type_heads.specs.Grouped.{IsIndex};
    ghost use Rattle.type_heads.specs.EnumNames.{IsEnumIndex};
    ghost use Rattle.type_heads.specs.Ancestors.{AreAncestors};

    ghost view = { λ h. h.entries.items };

    ghost invariant = { λ h. (length h.entries.items < 2 ^ 32) × IsIndex h.names h.entries.items × IsEnumIndex h.members h.entries.items × AreAncestors h.entries.items h.ancestors };
}

impl Heads {
    ghost use Rattle.type_heads.specs.DeclaredTypes.{program_of, types_of};
    ghost use Rattle.type_heads.specs.HeadsGrouped.{all_heads};
    ghost use Rattle.type_heads.specs.Gathered.{AreGathered, all_of};

    /// The heads of the types of a program, with extensions and bases worked in. More types than a `u32` counts
    /// are out of memory.
    pub fn build(alloc: Global, program: &Program) -> Result<Heads, AllocError>
        ensures { IfOk result (λ heads. heads ≡ (types_of (program_of program.now)).table.heads) }
    {
        let declarations = Declarations::of(alloc, program)?;
        Heads::of(alloc, &declarations)
    }

    /// The heads of the types that are declared.
    pub fn of(alloc: Global, declarations: &Declarations<'_>) -> Result<Heads, AllocError>
        requires { AreGathered declarations.now }
        ensures { IfOk result (λ heads. heads ≡ all_heads (all_of declarations.now)) }
    {
        let names = NameIndex::of(alloc, declarations.types.as_slice())?;
        let entries = own_heads(alloc, declarations)?;
        let members = EnumIndex::of(alloc, entries.as_slice())?;
        let ancestors = Ancestors::of(alloc, entries.as_slice())?;
        Ok(Heads {
            entries,
            names,
            members,
            ancestors,
        })
    }

    /// How many types there are.
    pub fn count(&self) -> u32
        ensures { result ≡ length self.now }
    {
        self.entries.len() as u32
    }

    /// The first type of that name. Only a behaviour that is asked for with its owner has one.
    pub fn named(&self, owner: Option<&str>, name: &str) -> Option<TypeId>
        ensures { result ≡ named self.now (option_copied owner.entry) name.now }
    {
        let place = self.names.get(owner, name)?;
        Some(TypeId(place))
    }

    /// The name of a type, without its owner. A number that no type has has none.
    pub fn name(&self, of: TypeId) -> &str
        ensures { result.now ≡ (head self.now of).name }
    {
        match self.entries.get(of.0 as usize) {
            Some(head) => head.name(),
            None => "",
        }
    }

    /// The type that a type inherits from. A number that no type has inherits from none.
    pub fn base(&self, of: TypeId) -> Option<TypeId>
        ensures { result ≡ base self.now of }
    {
        base_in(self.entries.as_slice(), of)
    }

    /// Whether a type inherits from `base`.
    pub fn has_base(&self, base: TypeId, of: TypeId) -> bool
        ensures { result ≡ has base (bases self.now of) }
    {
        match &self.ancestors {
            Some(ancestors) => ancestors.has_base(self.entries.as_slice(), base, of),
            None => is_on_line(self, base, self.base(of)),
        }
    }

    /// Whether a type is `base` or inherits from it.
    pub fn is_kind_of(&self, base: TypeId, of: TypeId) -> bool
        ensures { result ≡ is_kind self.now base of }
    {
        of == base || self.has_base(base, of)
    }

    /// What a type is. A number that no type has stands for `int`.
    pub fn form(&self, of: TypeId) -> Form<'_>
        ensures { seen_form result ≡ form self.now of }
    {
        match self.entries.get(of.0 as usize) {
            Some(head) => head.form(),
            None => Form::Int,
        }
    }

    /// The actor that owns a behaviour.
    pub fn owner(&self, of: TypeId) -> Option<TypeId>
        ensures { result ≡ owner self.now of }
    {
        let head = self.entries.get(of.0 as usize)?;
        self.named(None, head.owner()?)
    }

    /// The number of the member of that name. Only an enum has one.
    pub fn enum_number(&self, of: TypeId, name: &str) -> Option<i64>
        ensures { result ≡ option_map pos (enum_number self.now of name.now) }
    {
        self.members.number(of, name)
    }

    /// Which enum has a member of that name.
    pub fn enum_with(&self, name: &str) -> EnumHit
        ensures { result ≡ hit_of (enums_with self.now name.now) }
    {
        self.members.hit(name)
    }
}
