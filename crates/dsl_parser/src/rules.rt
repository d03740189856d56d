//! Rules: `keep` and `remove_default`.

ghost use Rattle.std.specs.Prelude.{◌≡◌, refl, map, option_map};
ghost use Rattle.dsl_cursor.specs.Words.{Ok, Part, read, in_row, Gives, rule_at, take};
ghost use Rattle.dsl_expressions.specs.Words.{expr_tree};
ghost use Rattle.dsl_parser.specs.Words.{rule_tree, initial, field_end, path as path_forest, path_tree, head_token, head_codes};
ghost use Rattle.dsl_tree.specs.WrittenPhases as written;

use dsl_cursor::Sign::{self, Mark, Word};
use dsl_cursor::{Cursor, Item, Stop, block};
use dsl_expressions::{expr, suffixes};
use dsl_headings::bracket_and_line_end;
use dsl_tree::WordKind::{ActorWord, ItWord};
use dsl_tree::{Expr, KeepKind, MarkKind, PathHead, PathNode, RuleDecl, TokenKind, WordKind};
use osc_base::Row;
use std::alloc::Global;

#[tactic(auto, using(dsl_cursor::proofs::ReadSteps::read_step, dsl_cursor::proofs::Lengths::take_within))]
fn keep_kind(tokens: &mut Cursor<'_>) -> KeepKind
    ensures { read Part.KeepKind tokens.old ≡ Ok (written.keep_kind result, tokens.new) }
{
    if tokens.take(Word(WordKind::HardWord)).is_some() {
        return KeepKind::Hard;
    }
    if tokens.take(Word(WordKind::DefaultWord)).is_some() {
        return KeepKind::Default;
    }
    KeepKind::Plain
}

#[tactic(auto, unfolding(dsl_cursor::specs::Descent::take))]
fn head(alloc: Global, tokens: &mut Cursor<'_>) -> Result<PathHead, Stop>
    ensures { Gives head_token (take head_codes tokens.old) result tokens.new }
{
    let (first, _) = tokens.split();
    match &first.kind {
        TokenKind::Name(_) => Ok(PathHead::Name(tokens.expect_name(alloc)?)),
        TokenKind::Word(ItWord) => Ok(PathHead::It(tokens.expect(Word(ItWord))?)),
        TokenKind::Word(ActorWord) => Ok(PathHead::Actor(tokens.expect(Word(ActorWord))?)),
        _ => Err(tokens.miss()),
    }
}

/// A path: a name, `it` or `actor`, and any suffixes.
#[tactic(auto, using(dsl_cursor::proofs::ReadSteps::read_step, crate::proofs::PathForests::path_forest))]
fn path(alloc: Global, tokens: &mut Cursor<'_>) -> Result<PathNode, Stop>
    ensures { Gives (λ p. path_forest (path_tree p)) (read Part.Path tokens.old) result tokens.new }
{
    let head = head(alloc, tokens)?;
    let suffixes = suffixes(alloc, tokens)?;
    Ok(PathNode { head, suffixes })
}

fn keep(alloc: Global, tokens: &mut Cursor<'_>) -> Result<RuleDecl, Stop>
    ensures { Gives (λ r. written.rule (rule_tree r)) (in_row read (rule_at Part.Rule 0) tokens.old) result tokens.new }
{
    let place = tokens.expect(Word(WordKind::KeepWord))?;
    tokens.expect(Mark(MarkKind::OpenRound))?;
    let kind = keep_kind(tokens);
    let expr = expr(alloc, tokens)?;
    bracket_and_line_end(tokens)?;
    Ok(RuleDecl::Keep { place, kind, expr })
}

fn remove(alloc: Global, tokens: &mut Cursor<'_>) -> Result<RuleDecl, Stop>
    ensures { Gives (λ r. written.rule (rule_tree r)) (in_row read (rule_at Part.Rule 1) tokens.old) result tokens.new }
{
    let place = tokens.expect(Word(WordKind::RemoveDefaultWord))?;
    tokens.expect(Mark(MarkKind::OpenRound))?;
    let path = path(alloc, tokens)?;
    bracket_and_line_end(tokens)?;
    Ok(RuleDecl::Remove { place, path })
}

/// One rule.
pub struct RuleItem;

impl Item for RuleItem {
    type Tree = RuleDecl;

    ghost part = { Part.Rule };

    ghost tail = { Part.RulesTail };

    ghost item = { λ r. written.rule (rule_tree r) };

    ghost rest = { λ rs. written.rules_tail (map rule_tree rs) };

    ghost law = { (refl, refl, refl, refl, refl, λ x xs. refl) };

    fn begins(tokens: &Cursor<'_>) -> bool {
        tokens.begins(Word(WordKind::KeepWord)) || tokens.begins(Word(WordKind::RemoveDefaultWord))
    }

    #[tactic(auto, using(dsl_cursor::proofs::ReadSteps::read_step))]
    fn item(alloc: Global, tokens: &mut Cursor<'_>) -> Result<RuleDecl, Stop> {
        if tokens.begins(Word(WordKind::KeepWord)) {
            return keep(alloc, tokens);
        }
        remove(alloc, tokens)
    }
}

/// The end of a field: the line end, or `with:` and a block of rules.
#[tactic(auto, using(crate::proofs::Blocks::step_field_end, crate::proofs::Blocks::rules_block))]
pub fn rules_of_field(alloc: Global, tokens: &mut Cursor<'_>) -> Result<Row<RuleDecl>, Stop>
    ensures { Gives (λ rs. field_end (map rule_tree rs)) (read Part.FieldEnd tokens.old) result tokens.new }
{
    if tokens.take(Sign::Newline).is_some() {
        return Ok(Row::new(alloc));
    }
    tokens.expect(Word(WordKind::WithWord))?;
    tokens.expect(Mark(MarkKind::Colon))?;
    let rules = block::<RuleItem>(alloc, tokens)?;
    Ok(rules)
}

/// The value that a field's declaration gives it, if there is one.
#[tactic(auto, using(dsl_cursor::proofs::ReadSteps::read_step))]
pub fn initial_value(alloc: Global, tokens: &mut Cursor<'_>) -> Result<Option<Expr>, Stop>
    ensures { Gives (λ value. initial (option_map expr_tree value)) (read Part.Initial tokens.old) result tokens.new }
{
    if tokens.take(Mark(MarkKind::Assign)).is_none() {
        return Ok(None);
    }
    Ok(Some(expr(alloc, tokens)?))
}
