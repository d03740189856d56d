//! Arguments.

ghost use Rattle.std.specs.Prelude.{◌≡◌, ◌<◌, map};
ghost use Rattle.dsl_cursor.specs.Words.{length, true, false, IfOk, Part, read, begins_label as has_label, Gives};
ghost use Rattle.dsl_expressions.specs.Words.{argument_tree, HasMore, IsPlain, IsNamed};
ghost use Rattle.dsl_tree.specs.WrittenPhases as written;

use crate::expressions::expr;
use dsl_cursor::Sign::Mark;
use dsl_cursor::{Cursor, Repeated, Stop, is_sign, with_rest};
use dsl_tree::osc_base::Row;
use dsl_tree::{Argument, MarkKind, TokenKind};
use std::alloc::Global;

/// Whether the tokens begin with a name and a colon.
#[tactic(auto, unfolding(dsl_cursor::specs::Descent::begins_label))]
fn begins_label(tokens: &Cursor<'_>) -> bool
    ensures { result ≡ has_label tokens.now }
{
    let (first, rest) = tokens.split();
    match &first.kind {
        TokenKind::Name(_) => match rest {
            [next, ..] => is_sign(&next.kind, Mark(MarkKind::Colon)),
            [] => false,
        },
        _ => false,
    }
}

/// Arguments with names, each after a comma.
struct MoreArguments;

impl Repeated for MoreArguments {
    type Tree = Argument;

    ghost tail = { Part.NamedTail };

    ghost rest = { λ xs. written.named_tail (map argument_tree xs) };

    #[tactic(auto, using(dsl_cursor::proofs::ReadSteps::read_step, dsl_cursor::proofs::Lengths::lengths))]
    fn next(alloc: Global, tokens: &mut Cursor<'_>) -> Result<Option<Argument>, Stop> {
        match tokens.take(Mark(MarkKind::CloseRound)) {
            Some(_) => Ok(None),
            None => {
                tokens.expect(Mark(MarkKind::Comma))?;
                Ok(Some(named(alloc, tokens)?))
            }
        }
    }
}

/// An argument with a name, and not what stands after it.
fn named(alloc: Global, tokens: &mut Cursor<'_>) -> Result<Argument, Stop>
    ensures { IsNamed tokens.old result tokens.new }
{
    let name = Some(tokens.expect_name(alloc)?);
    tokens.expect(Mark(MarkKind::Colon))?;
    let value = expr(alloc, tokens)?;
    Ok(Argument { name, value })
}

/// Whether another argument stands after one without a name: a comma, or the closing bracket.
#[tactic(auto, using(crate::proofs::ArgumentRows::step_arguments_tail, dsl_cursor::proofs::Lengths::lengths))]
fn more(tokens: &mut Cursor<'_>) -> Result<bool, Stop>
    ensures { HasMore tokens.old result tokens.new }
{
    if tokens.take(Mark(MarkKind::CloseRound)).is_some() {
        return Ok(false);
    }
    tokens.expect(Mark(MarkKind::Comma))?;
    Ok(true)
}

/// An argument without a name, and whether another one stands after it.
#[tactic(auto, using(crate::proofs::ArgumentRows::unlabelled, dsl_cursor::proofs::Lengths::lengths))]
fn plain(alloc: Global, tokens: &mut Cursor<'_>) -> Result<(Argument, bool), Stop>
    requires { has_label tokens.old ≡ false }
    ensures { IsPlain tokens.old result tokens.new }
{
    let value = expr(alloc, tokens)?;
    let more = more(tokens)?;
    Ok((Argument { name: None, value }, more))
}

/// Arguments, one or more, and the closing bracket after them.
#[tactic(auto, using(crate::proofs::ArgumentRows::labelled, crate::proofs::ArgumentRows::unlabelled))]
pub fn arguments(alloc: Global, tokens: &mut Cursor<'_>) -> Result<Row<Argument>, Stop>
    ensures gives { Gives (λ xs. written.arguments (map argument_tree xs)) (read Part.Arguments tokens.old) result tokens.new }
    ensures some { IfOk result (λ xs. 0 < length xs) }
{
    let mut items = Row::new(alloc);
    'plain: while !begins_label(tokens) {
        let (item, more) = plain(alloc, tokens)?;
        items.push(item)?;
        if !more {
            return Ok(items);
        }
    }
    items.push(named(alloc, tokens)?)?;
    let all = with_rest::<MoreArguments>(alloc, items, tokens)?;
    Ok(all)
}
