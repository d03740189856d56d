ghost use Rattle.std.specs.Prelude.{◌≡◌};
ghost use Rattle.dsl_spell.specs.Writing.{List, map, refl, OnOk, ModifierPartTree, modifier_block, modifier_part, modifier_parts_tail, modifiers, modifier_decl_tree, modifier_part_tree, Writes};

use crate::rows::{Next, push_rest};
use crate::spell_phase::{push_modifier, push_rule};
use crate::writer::Writer;
use dsl_tree::{Ident, MarkKind, ModifierDecl, ModifierPart, WordKind};
use std::alloc::AllocError;

fn push_parameter(w: &mut Writer, name: &Ident, of: &Ident) -> Result<(), AllocError>
    ensures { OnOk result (Writes w.old (modifier_part (ModifierPartTree.Parameter name.now of.now)) w.new) }
{
    w.name(name)?;
    w.bare_mark(MarkKind::Colon)?;
    w.name(of)?;
    w.line_end()
}

impl Next for ModifierPart {
    ghost tail = { λ parts. modifier_parts_tail (map modifier_part_tree parts) };

    ghost ends = { refl };

    fn next(&self, w: &mut Writer) -> Result<(), AllocError> {
        match self {
            ModifierPart::Parameter { name, of } => push_parameter(w, name, of),
            ModifierPart::Rule(rule) => push_rule(w, rule),
            ModifierPart::Apply(modifier) => push_modifier(w, modifier),
        }
    }
}

fn push_parts(w: &mut Writer, parts: &[ModifierPart]) -> Result<(), AllocError>
    ensures { OnOk result (Writes w.old (modifier_block (map modifier_part_tree parts.now)) w.new) }
{
    w.begin_block()?;
    push_rest(w, parts)?;
    w.end_block()
}

impl Next for ModifierDecl {
    ghost tail = { λ decls. modifiers (map modifier_decl_tree decls) };

    ghost ends = { refl };

    fn next(&self, w: &mut Writer) -> Result<(), AllocError> {
        w.word(self.place, WordKind::ModifierWord)?;
        w.name(&self.name)?;
        w.bare_mark(MarkKind::Colon)?;
        push_parts(w, self.parts.as_slice())
    }
}
