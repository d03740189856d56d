//! Declarations of modifiers.

ghost use Rattle.std.specs.Prelude.{◌≡◌, refl, map};
ghost use Rattle.dsl_cursor.specs.Words.{Part, read, in_row, Gives, rule_at};
ghost use Rattle.dsl_parser.specs.Words.{modifier_decl_tree, modifier_part_tree, written_named};
ghost use Rattle.dsl_tree.specs.WrittenFile as written;

use crate::invocations::invocation_arguments;
use crate::rules::RuleItem;
use dsl_cursor::Sign::{self, Mark, Word};
use dsl_cursor::{Cursor, Item, Stop, block, items};
use dsl_tree::{Argument, Ident, MarkKind, ModifierDecl, ModifierNode, ModifierPart, WordKind};
use osc_base::Row;
use std::alloc::Global;

/// A part of a modifier after its name: the type of a parameter, or the arguments of a modifier that is applied.
#[derive(Drop)]
enum NamedPart {
    OfType(Ident),
    With(Row<Argument>),
}

#[tactic(auto, using(crate::proofs::Steps::step_named_part))]
fn named_part(alloc: Global, tokens: &mut Cursor<'_>) -> Result<NamedPart, Stop>
    ensures { Gives written_named (read Part.NamedPart tokens.old) result tokens.new }
{
    if tokens.take(Mark(MarkKind::Colon)).is_some() {
        let of = tokens.expect_name(alloc)?;
        tokens.expect(Sign::Newline)?;
        return Ok(NamedPart::OfType(of));
    }
    tokens.expect(Mark(MarkKind::OpenRound))?;
    let arguments = invocation_arguments(alloc, tokens)?;
    tokens.expect(Sign::Newline)?;
    Ok(NamedPart::With(arguments))
}

fn named_line(alloc: Global, tokens: &mut Cursor<'_>) -> Result<ModifierPart, Stop>
    ensures { Gives (λ p. written.modifier_part (modifier_part_tree p)) (in_row read (rule_at Part.ModifierPart 0) tokens.old) result tokens.new }
{
    let name = tokens.expect_name(alloc)?;
    match named_part(alloc, tokens)? {
        NamedPart::OfType(of) => Ok(ModifierPart::Parameter { name, of }),
        NamedPart::With(arguments) => Ok(ModifierPart::Apply(ModifierNode { name, arguments })),
    }
}

/// One line of a modifier.
struct LineItem;

impl Item for LineItem {
    type Tree = ModifierPart;

    ghost part = { Part.ModifierPart };

    ghost tail = { Part.ModifierPartsTail };

    ghost item = { λ p. written.modifier_part (modifier_part_tree p) };

    ghost rest = { λ ps. written.modifier_parts_tail (map modifier_part_tree ps) };

    ghost law = { (refl, refl, refl, refl, refl, λ x xs. refl) };

    fn begins(tokens: &Cursor<'_>) -> bool {
        tokens.begins_name() || RuleItem::begins(tokens)
    }

    #[tactic(auto, using(dsl_cursor::proofs::ReadSteps::read_step))]
    fn item(alloc: Global, tokens: &mut Cursor<'_>) -> Result<ModifierPart, Stop> {
        if tokens.begins_name() {
            return named_line(alloc, tokens);
        }
        Ok(ModifierPart::Rule(RuleItem::item(alloc, tokens)?))
    }
}

/// One modifier.
struct ModifierItem;

impl Item for ModifierItem {
    type Tree = ModifierDecl;

    ghost part = { Part.ModifierDeclaration };

    ghost tail = { Part.Modifiers };

    ghost item = { λ d. written.modifier_declaration (modifier_decl_tree d) };

    ghost rest = { λ ds. written.modifiers (map modifier_decl_tree ds) };

    ghost law = { (refl, refl, refl, refl, refl, λ x xs. refl) };

    fn begins(tokens: &Cursor<'_>) -> bool {
        tokens.begins(Word(WordKind::ModifierWord))
    }

    #[tactic(auto, using(crate::proofs::Blocks::step_modifier, crate::proofs::Blocks::modifier_lines))]
    fn item(alloc: Global, tokens: &mut Cursor<'_>) -> Result<ModifierDecl, Stop> {
        let place = tokens.expect(Word(WordKind::ModifierWord))?;
        let name = tokens.expect_name(alloc)?;
        tokens.expect(Mark(MarkKind::Colon))?;
        let parts = block::<LineItem>(alloc, tokens)?;
        Ok(ModifierDecl { place, name, parts })
    }
}

/// The modifiers of a file.
pub fn modifiers(alloc: Global, tokens: &mut Cursor<'_>) -> Result<Row<ModifierDecl>, Stop>
    ensures { Gives (λ ds. written.modifiers (map modifier_decl_tree ds)) (read Part.Modifiers tokens.old) result tokens.new }
{
    items::<ModifierItem>(alloc, tokens)
}
