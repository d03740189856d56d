//! Invocations after their head: arguments, and the block of rules and modifiers.

ghost use Rattle.std.specs.Prelude.{◌≡◌, refl, map};
ghost use Rattle.dsl_cursor.specs.Words.{Part, read, in_row, Gives, rule_at};
ghost use Rattle.dsl_expressions.specs.Words.{argument_tree};
ghost use Rattle.dsl_parser.specs.Words.{part_tree};
ghost use Rattle.dsl_tree.specs.WrittenPhases as written;

use crate::rules::RuleItem;
use dsl_cursor::Sign::{self, Mark, Word};
use dsl_cursor::{Cursor, Item, Stop, block};
use dsl_expressions::arguments::arguments;
use dsl_headings::imports::dotted_names;
use dsl_tree::{Argument, Ident, InvokePart, MarkKind, ModifierNode, WordKind};
use osc_base::Row;
use std::alloc::Global;

fn modifier(alloc: Global, tokens: &mut Cursor<'_>) -> Result<InvokePart, Stop>
    ensures { Gives (λ p. written.invocation_part (part_tree p)) (in_row read (rule_at Part.InvocationPart 1) tokens.old) result tokens.new }
{
    let name = tokens.expect_name(alloc)?;
    tokens.expect(Mark(MarkKind::OpenRound))?;
    let arguments = invocation_arguments(alloc, tokens)?;
    tokens.expect(Sign::Newline)?;
    Ok(InvokePart::Modifier(ModifierNode { name, arguments }))
}

/// One rule or modifier of an invocation.
struct PartItem;

impl Item for PartItem {
    type Tree = InvokePart;

    ghost part = { Part.InvocationPart };

    ghost tail = { Part.PartsTail };

    ghost item = { λ p. written.invocation_part (part_tree p) };

    ghost rest = { λ ps. written.parts_tail (map part_tree ps) };

    ghost law = { (refl, refl, refl, refl, refl, λ x xs. refl) };

    fn begins(tokens: &Cursor<'_>) -> bool {
        tokens.begins_name() || RuleItem::begins(tokens)
    }

    #[tactic(auto, using(dsl_cursor::proofs::ReadSteps::read_step))]
    fn item(alloc: Global, tokens: &mut Cursor<'_>) -> Result<InvokePart, Stop> {
        if RuleItem::begins(tokens) {
            return Ok(InvokePart::Rule(RuleItem::item(alloc, tokens)?));
        }
        modifier(alloc, tokens)
    }
}

#[tactic(auto, using(crate::proofs::Blocks::step_invocation_end, crate::proofs::Blocks::parts_block))]
fn invocation_end(alloc: Global, tokens: &mut Cursor<'_>) -> Result<Row<InvokePart>, Stop>
    ensures { Gives (λ ps. written.invocation_end (map part_tree ps)) (read Part.InvocationEnd tokens.old) result tokens.new }
{
    if tokens.take(Sign::Newline).is_some() {
        return Ok(Row::new(alloc));
    }
    tokens.expect(Word(WordKind::WithWord))?;
    tokens.expect(Mark(MarkKind::Colon))?;
    let parts = block::<PartItem>(alloc, tokens)?;
    Ok(parts)
}

/// The arguments of an invocation or a modifier, if there are any, and the closing bracket.
#[tactic(auto, using(dsl_cursor::proofs::ReadSteps::read_step, crate::proofs::Blocks::some_arguments))]
pub fn invocation_arguments(alloc: Global, tokens: &mut Cursor<'_>) -> Result<Row<Argument>, Stop>
    ensures { Gives (λ xs. written.invocation_arguments (map argument_tree xs)) (read Part.InvocationArguments tokens.old) result tokens.new }
{
    if tokens.take(Mark(MarkKind::CloseRound)).is_some() {
        return Ok(Row::new(alloc));
    }
    let found = arguments(alloc, tokens)?;
    Ok(found)
}

/// The arguments of a composition in their brackets, if there are any.
#[tactic(auto, using(dsl_cursor::proofs::ReadSteps::read_step, crate::proofs::Blocks::some_arguments))]
pub fn composition_arguments(alloc: Global, tokens: &mut Cursor<'_>) -> Result<Row<Argument>, Stop>
    ensures { Gives (λ xs. written.composition_arguments (map argument_tree xs)) (read Part.CompositionArguments tokens.old) result tokens.new }
{
    if tokens.take(Mark(MarkKind::OpenRound)).is_none() {
        return Ok(Row::new(alloc));
    }
    let found = arguments(alloc, tokens)?;
    Ok(found)
}

/// An invocation after its head.
#[derive(Drop)]
pub struct InvocationRest {
    pub names: Row<Ident>,
    pub arguments: Row<Argument>,
    pub parts: Row<InvokePart>,
}

/// An invocation after its head.
#[tactic(auto, using(crate::proofs::Steps::step_invocation_rest))]
pub fn invocation_rest(alloc: Global, tokens: &mut Cursor<'_>) -> Result<InvocationRest, Stop>
    ensures { Gives (λ i. written.invocation_rest i.names (map argument_tree i.arguments) (map part_tree i.parts)) (read Part.InvocationRest tokens.old) result tokens.new }
{
    let names = dotted_names(alloc, Row::new(alloc), tokens)?;
    tokens.expect(Mark(MarkKind::OpenRound))?;
    let arguments = invocation_arguments(alloc, tokens)?;
    let parts = invocation_end(alloc, tokens)?;
    Ok(InvocationRest {
        names,
        arguments,
        parts,
    })
}
