//! The members of an enum and their numbers.

use crate::EnumEntry;
use crate::placed::PlacedDecl;
use name_scope::dsl_tree::{Declaration, EnumItem};
use std::alloc::{AllocError, Global};
use units_si::osc_base::{Row, Text};

/// The members of an enum so far, and the number that the next one has if none is written.
#[derive(Drop)]
pub struct Numbering {
    entries: Vec<EnumEntry>,
    next: u64,
}

/// The numbers that members may have for now. A greater one counts as out of memory; the numbers of a source are
/// far below.
const MOST: u64 = 0x7fff_ffff_ffff_ffff;

impl Numbering {
    ghost use Rattle.std.specs.Prelude.{◌≡◌, ◌++◌, ◌∷◌, List, flat_map, IfOk, OnOk};
    ghost use Rattle.name_scope.specs.dsl_tree.declared.enums.EnumItem.{EnumItem as Item};
    ghost use Rattle.type_heads.specs.DeclaredTypes.{numbered_from};
    ghost use Rattle.type_heads.specs.Numbering.{with_items, items_placed};

    /// No members.
    fn new(alloc: Global) -> Numbering
        ensures { (more : List Item) → with_items result more ≡ numbered_from 0 more }
    {
        Numbering {
            entries: Vec::new(alloc),
            next: 0,
        }
    }

    fn push(&mut self, alloc: Global, item: &EnumItem) -> Result<(), AllocError>
        ensures { OnOk result ((more : List Item) → with_items self.new more ≡ with_items self.old (item.now ∷ more)) }
    {
        let number = match item.number {
            Some(number) => number.digits,
            None => self.next,
        };
        if number > MOST {
            return Err(AllocError);
        }
        let name = Text::copy(alloc, item.name.text.as_str())?;
        self.entries.push(EnumEntry::new(name, number))?;
        self.next = number + 1;
        Ok(())
    }

    fn push_all(&mut self, alloc: Global, items: &[EnumItem]) -> Result<(), AllocError>
        ensures { OnOk result ((more : List Item) → with_items self.new more ≡ with_items self.old (items.now ++ more)) }
    {
        for item in items {
            self.push(alloc, item)?;
        }
        Ok(())
    }

    fn push_extension(&mut self, alloc: Global, placed: PlacedDecl<'_>) -> Result<(), AllocError>
        ensures { OnOk result ((more : List Item) → with_items self.new more ≡ with_items self.old (items_placed placed.entry ++ more)) }
    {
        match placed.declaration {
            Declaration::EnumExtension(decl) => self.push_all(alloc, decl.items.as_slice()),
            Declaration::Physical(_)
            | Declaration::Unit(_)
            | Declaration::Enum(_)
            | Declaration::Compound(_)
            | Declaration::MemberExtension(_) => Ok(()),
        }
    }

    fn push_extensions(
        &mut self,
        alloc: Global,
        extensions: &[PlacedDecl<'_>],
    ) -> Result<(), AllocError>
        ensures { OnOk result ((more : List Item) → with_items self.new more ≡ with_items self.old (flat_map items_placed extensions.now ++ more)) }
    {
        for placed in extensions {
            self.push_extension(alloc, *placed)?;
        }
        Ok(())
    }

    /// The members of an enum as written, and then those of its extensions.
    pub fn numbered(
        alloc: Global,
        items: &[EnumItem],
        extensions: &[PlacedDecl<'_>],
    ) -> Result<Row<EnumEntry>, AllocError>
        ensures { IfOk result (λ entries. entries ≡ numbered_from 0 (items.now ++ flat_map items_placed extensions.now)) }
    {
        let mut numbering = Numbering::new(alloc);
        numbering.push_all(alloc, items)?;
        numbering.push_extensions(alloc, extensions)?;
        Ok(Row::of(numbering.entries))
    }
}
