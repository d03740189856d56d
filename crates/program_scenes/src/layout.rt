//! The works of a program.

ghost use Rattle.std.specs.Prelude.{◌≡◌, IfOk};
ghost use Rattle.work_parts.specs.program_texts.SeenTexts.{types_in, types_with};
ghost use Rattle.named_scenario.specs.type_heads.Told.{told};

use named_scenario::{ProgramMembers, Spot, TypeId, Types};
use osc_base::{Place, Row};
use std::alloc::{AllocError, Global};
use work_constraints::{Counts, Occurrence, push_occurrences};
use work_parts::{
    Binding, Layout, ModifierSpot, ProgramTexts, Scene, TextTable, Work, WorkLayout, counts, parts,
    push_bindings, push_modifiers, root, root_parts, spot, texts,
};

/// The works of the scenarios of a program, read from its texts.
#[derive(Drop)]
pub struct ProgramLayout<'p> {
    texts: ProgramTexts<'p>,
}

impl<'p> ProgramLayout<'p> {
    /// The works of the scenarios of a program with these types and members. Both are those of one program.
    pub fn of(
        alloc: Global,
        types: &'p Types,
        members: &'p ProgramMembers<'p>,
    ) -> Result<ProgramLayout<'p>, AllocError>
        requires built { types.now ≡ told (types_with members.now types.now.table) }
        ensures { IfOk result (λ layout. types_in layout.texts ≡ types_with members.entry.now types.entry.now.table) }
    {
        let texts = ProgramTexts::of(alloc, types, members)?;
        Ok(ProgramLayout { texts })
    }
}

impl<'p> WorkLayout<'p> for ProgramLayout<'p> {
    ghost use Rattle.work_parts.specs.program_texts.SeenTexts.{types_in};

    ghost types = { λ l. types_in l.texts };

    fn scenario(&self, owner: Option<&str>, name: &str) -> Option<TypeId> {
        self.texts.scenario(owner, name)
    }

    fn place(&self, of: TypeId) -> Place {
        self.texts.place(of)
    }

    fn root(&self, alloc: Global, of: TypeId) -> Result<Work<'p>, AllocError> {
        root(alloc, &self.texts, of)
    }

    fn root_parts(&self, alloc: Global, of: TypeId) -> Result<Vec<Work<'p>>, AllocError> {
        root_parts(alloc, &self.texts, of)
    }

    fn parts(&self, alloc: Global, work: &Work<'p>) -> Result<Vec<Work<'p>>, AllocError> {
        parts(alloc, &self.texts, work)
    }

    fn counts(&self, alloc: Global, work: &Work<'p>, last: u32) -> Result<Counts, AllocError> {
        counts(alloc, &self.texts, work, last)
    }
}

impl<'p> Layout<'p> for ProgramLayout<'p> {
    fn spot(&self, alloc: Global, work: &Work<'p>) -> Result<Spot, AllocError> {
        spot(alloc, &self.texts, work)
    }

    fn push_bindings(
        &self,
        alloc: Global,
        bindings: &mut Row<Binding>,
        work: &Work<'p>,
    ) -> Result<(), AllocError> {
        push_bindings(alloc, bindings, work)
    }

    fn push_occurrences(
        &self,
        alloc: Global,
        scene: &Scene,
        occurrences: &mut Vec<Occurrence>,
        work: &Work<'p>,
    ) -> Result<(), AllocError> {
        push_occurrences(alloc, &self.texts, scene, occurrences, work)
    }

    fn push_modifiers(
        &self,
        alloc: Global,
        scene: &Scene,
        modifiers: &mut Vec<ModifierSpot>,
        work: &Work<'p>,
    ) -> Result<(), AllocError> {
        push_modifiers(alloc, &self.texts, scene, modifiers, work)
    }

    fn texts(&self, alloc: Global) -> Result<TextTable, AllocError> {
        texts(alloc, &self.texts)
    }
}
