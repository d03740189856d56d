//! Expressions.
//!
//! Each part of the grammar has its reader; those of the four rows of operators are one, by the level
//! of the row. What stands in a row is read by a loop, so that calls nest only as brackets do.

ghost use Rattle.std.specs.Prelude.{◌≡◌, ◌≢◌, ◌<◌, ◌≤◌, ◌∷◌};
ghost use Rattle.dsl_cursor.specs.Words.{[], length, Err, IfOk, IfErr, Memory, MarkKind, nil, sub, Part, first, starts, read, in_row, Gives, rule_at, IsRow};
ghost use Rattle.dsl_expressions.specs.Words.{expr_tree, at_level, row_part, row_level, item_part, item_level, tail_part, tail_of, suffix_of, suffixes_of, items_of};
ghost use Rattle.dsl_tree.specs.Written as written;
ghost use Rattle.dsl_expressions.specs.Levels as level;

use crate::levels::{RowLevel, begins_operator, row_of, take_operator, take_sign, with_suffixes};
use crate::operands::leaf;
use dsl_cursor::Sign::{Mark, Word};
use dsl_cursor::{Cursor, Stop};
use dsl_tree::osc_base::{Boxed, Place, Row};
use dsl_tree::{Expr, Further, MarkKind, Suffix, TokenKind, WordKind};
use std::alloc::Global;

/// An expression.
#[tactic(auto, unfolding(crate::specs::Levels::at_level))]
pub fn expr(alloc: Global, tokens: &mut Cursor<'_>) -> Result<Expr, Stop>
    ensures { Gives (λ e. written.expr (expr_tree e)) (read Part.Expr tokens.old) result tokens.new }
{
    expression(alloc, tokens)
}

/// A whole expression.
#[cycle(expressions)]
#[tactic(auto, using(crate::proofs::Steps::step_expr, crate::proofs::Steps::step_implies_tail, crate::proofs::ExprSteps::alone_expr, crate::proofs::ExprForests::implies_forest, dsl_cursor::proofs::Lengths::lengths))]
fn expression(alloc: Global, tokens: &mut Cursor<'_>) -> Result<Expr, Stop>
    ensures gives { Gives (at_level 0) (read Part.Expr tokens.old) result tokens.new }
    ensures shorter { IfOk result (λ found. length tokens.new < length tokens.old) }
{
    let left = row(alloc, tokens, RowLevel::OrRow)?;
    let Some(place) = tokens.take(Mark(MarkKind::Arrow)) else {
        return Ok(left);
    };
    let left = Boxed::new(alloc, left)?;
    let right = row(alloc, tokens, RowLevel::OrRow)?;
    let right = Boxed::new(alloc, right)?;
    Ok(Expr::Implies { place, left, right })
}

/// An item of a row.
#[cycle(expressions)]
fn item(alloc: Global, tokens: &mut Cursor<'_>, level: RowLevel) -> Result<Expr, Stop>
    ensures gives { Gives (at_level (item_level level)) (read (item_part level) tokens.old) result tokens.new }
    ensures shorter { IfOk result (λ found. length tokens.new < length tokens.old) }
{
    match level {
        RowLevel::OrRow => row(alloc, tokens, RowLevel::AndRow),
        RowLevel::AndRow => not(alloc, tokens),
        RowLevel::SumRow => row(alloc, tokens, RowLevel::ProductRow),
        RowLevel::ProductRow => minus(alloc, tokens),
    }
}

/// A row of operators, or one item.
#[cycle(expressions)]
#[tactic(auto, using(crate::proofs::ExprSteps::alone_item, crate::proofs::ExprSteps::items_read, crate::proofs::ExprSteps::step_row, dsl_cursor::proofs::Lengths::lengths))]
fn row(alloc: Global, tokens: &mut Cursor<'_>, level: RowLevel) -> Result<Expr, Stop>
    ensures gives { Gives (at_level (row_level level)) (read (row_part level) tokens.old) result tokens.new }
    ensures shorter { IfOk result (λ found. length tokens.new < length tokens.old) }
{
    let first = item(alloc, tokens, level)?;
    if !begins_operator(tokens, level) {
        return Ok(first);
    }
    let first = Boxed::new(alloc, first)?;
    let others = tail(alloc, tokens, level)?;
    Ok(row_of(level, first, others))
}

/// The operators of a row, each with the item after it.
#[cycle(expressions)]
#[tactic(auto, using(dsl_cursor::proofs::Lengths::lengths))]
fn tail(alloc: Global, tokens: &mut Cursor<'_>, level: RowLevel) -> Result<Row<Further>, Stop>
    ensures gives { Gives (tail_of (item_level level)) (read (tail_part level) tokens.old) result tokens.new }
    ensures shorter { IfOk result (λ found. length tokens.new ≤ length tokens.old) }
{
    let mut items = Row::new(alloc);
    'items: while let Some((place, operator)) = take_operator(tokens, level) {
        let part = item(alloc, tokens, level)?;
        items.push(Further {
            place,
            operator,
            part,
        })?;
    }
    Ok(items)
}

/// A relation with `not` before it, or without.
#[cycle(expressions)]
#[tactic(auto, using(crate::proofs::Steps::step_not, crate::proofs::ExprSteps::lower_not, crate::proofs::ExprForests::not_forest, dsl_cursor::proofs::Lengths::lengths))]
fn not(alloc: Global, tokens: &mut Cursor<'_>) -> Result<Expr, Stop>
    ensures gives { Gives (at_level 3) (read Part.Not tokens.old) result tokens.new }
    ensures shorter { IfOk result (λ found. length tokens.new < length tokens.old) }
{
    let Some(place) = tokens.take(Word(WordKind::NotWord)) else {
        return relation(alloc, tokens);
    };
    let part = relation(alloc, tokens)?;
    let part = Boxed::new(alloc, part)?;
    Ok(Expr::Not { place, part })
}

/// A relation, or its left side alone.
#[cycle(expressions)]
#[tactic(auto, using(crate::proofs::Steps::step_relation, crate::proofs::Steps::step_relation_tail, crate::proofs::ExprSteps::alone_relation, crate::proofs::ExprForests::relation_forest, dsl_cursor::proofs::Lengths::take_within, dsl_cursor::proofs::Lengths::lengths))]
fn relation(alloc: Global, tokens: &mut Cursor<'_>) -> Result<Expr, Stop>
    ensures gives { Gives (at_level 4) (read Part.Relation tokens.old) result tokens.new }
    ensures shorter { IfOk result (λ found. length tokens.new < length tokens.old) }
{
    let left = row(alloc, tokens, RowLevel::SumRow)?;
    let Some((place, sign)) = take_sign(tokens) else {
        return Ok(left);
    };
    let left = Boxed::new(alloc, left)?;
    let right = row(alloc, tokens, RowLevel::SumRow)?;
    let right = Boxed::new(alloc, right)?;
    Ok(Expr::Relation {
        place,
        sign,
        left,
        right,
    })
}

/// An operand with a minus before it, or without.
#[cycle(expressions)]
#[tactic(auto, using(crate::proofs::Steps::step_minus, crate::proofs::ExprSteps::lower_minus, crate::proofs::ExprForests::minus_forest, dsl_cursor::proofs::Lengths::lengths))]
fn minus(alloc: Global, tokens: &mut Cursor<'_>) -> Result<Expr, Stop>
    ensures gives { Gives (at_level 7) (read Part.Minus tokens.old) result tokens.new }
    ensures shorter { IfOk result (λ found. length tokens.new < length tokens.old) }
{
    let Some(place) = tokens.take(Mark(MarkKind::Dash)) else {
        return postfix(alloc, tokens);
    };
    let part = postfix(alloc, tokens)?;
    let part = Boxed::new(alloc, part)?;
    Ok(Expr::Minus { place, part })
}

/// An operand with its suffixes.
#[cycle(expressions)]
#[tactic(auto, using(crate::proofs::Steps::step_postfix, crate::proofs::ExprSteps::alone_postfix, crate::proofs::ExprSteps::suffixes_read, dsl_cursor::proofs::Lengths::lengths))]
fn postfix(alloc: Global, tokens: &mut Cursor<'_>) -> Result<Expr, Stop>
    ensures gives { Gives (at_level 8) (read Part.Postfix tokens.old) result tokens.new }
    ensures shorter { IfOk result (λ found. length tokens.new < length tokens.old) }
{
    let head = primary(alloc, tokens)?;
    if !begins_suffix(tokens) {
        return Ok(head);
    }
    let head = Boxed::new(alloc, head)?;
    let suffixes = suffixes(alloc, tokens)?;
    Ok(with_suffixes(head, suffixes))
}

/// The suffixes that the tokens begin with.
#[cycle(expressions)]
#[tactic(auto, using(dsl_cursor::proofs::Lengths::lengths))]
pub fn suffixes(alloc: Global, tokens: &mut Cursor<'_>) -> Result<Row<Suffix>, Stop>
    ensures gives { Gives suffixes_of (read Part.SuffixesTail tokens.old) result tokens.new }
    ensures shorter { IfOk result (λ found. length tokens.new ≤ length tokens.old) }
{
    let mut suffixes = Row::new(alloc);
    'suffixes: while begins_suffix(tokens) {
        let item = suffix(alloc, tokens)?;
        suffixes.push(item)?;
    }
    Ok(suffixes)
}

fn begins_suffix(tokens: &Cursor<'_>) -> bool
    ensures { result ≡ starts (first Part.Suffix) tokens.now }
{
    let (next, _) = tokens.split();
    matches!(
        next.kind,
        TokenKind::Mark(MarkKind::Dot | MarkKind::OpenSquare)
    )
}

/// A point and a name, or an index in square brackets.
#[cycle(expressions)]
#[tactic(auto, using(crate::proofs::Steps::step_suffix, crate::proofs::ExprForests::suffix_forests, dsl_cursor::proofs::Lengths::lengths))]
fn suffix(alloc: Global, tokens: &mut Cursor<'_>) -> Result<Suffix, Stop>
    ensures gives { Gives suffix_of (read Part.Suffix tokens.old) result tokens.new }
    ensures shorter { IfOk result (λ found. length tokens.new < length tokens.old) }
{
    if tokens.take(Mark(MarkKind::Dot)).is_some() {
        let name = tokens.expect_name(alloc)?;
        return Ok(Suffix::Dot(name));
    }
    let place = tokens.expect(Mark(MarkKind::OpenSquare))?;
    let index = expression(alloc, tokens)?;
    tokens.expect(Mark(MarkKind::CloseSquare))?;
    Ok(Suffix::Index { place, index })
}

/// An operand.
#[cycle(expressions)]
#[tactic(auto, using(crate::proofs::Steps::step_primary, dsl_cursor::proofs::Lengths::lengths))]
fn primary(alloc: Global, tokens: &mut Cursor<'_>) -> Result<Expr, Stop>
    ensures gives { Gives (at_level 9) (read Part.Primary tokens.old) result tokens.new }
    ensures shorter { IfOk result (λ found. length tokens.new < length tokens.old) }
{
    let (first, _) = tokens.split();
    match &first.kind {
        TokenKind::Mark(MarkKind::OpenRound) => group(alloc, tokens),
        TokenKind::Mark(MarkKind::OpenSquare) => bracket(alloc, tokens),
        TokenKind::Word(WordKind::RangeWord) => range_call(alloc, tokens),
        _ => leaf(alloc, tokens),
    }
}

/// An expression in round brackets.
#[cycle(expressions)]
#[tactic(auto, using(crate::proofs::ExprForests::group_forest, dsl_cursor::proofs::Lengths::lengths))]
fn group(alloc: Global, tokens: &mut Cursor<'_>) -> Result<Expr, Stop>
    ensures gives { Gives (at_level 9) (in_row read (rule_at Part.Primary 7) tokens.old) result tokens.new }
    ensures shorter { IfOk result (λ found. length tokens.new < length tokens.old) }
{
    let place = tokens.expect(Mark(MarkKind::OpenRound))?;
    let inner = expression(alloc, tokens)?;
    let inner = Boxed::new(alloc, inner)?;
    tokens.expect(Mark(MarkKind::CloseRound))?;
    Ok(Expr::Group { place, inner })
}

/// `range(LOW, HIGH)`.
#[cycle(expressions)]
#[tactic(auto, using(crate::proofs::ExprForests::range_forest, dsl_cursor::proofs::Lengths::lengths))]
fn range_call(alloc: Global, tokens: &mut Cursor<'_>) -> Result<Expr, Stop>
    ensures gives { Gives (at_level 9) (in_row read (rule_at Part.Primary 9) tokens.old) result tokens.new }
    ensures shorter { IfOk result (λ found. length tokens.new < length tokens.old) }
{
    let place = tokens.expect(Word(WordKind::RangeWord))?;
    tokens.expect(Mark(MarkKind::OpenRound))?;
    let low = expression(alloc, tokens)?;
    let low = Boxed::new(alloc, low)?;
    tokens.expect(Mark(MarkKind::Comma))?;
    let high = expression(alloc, tokens)?;
    let high = Boxed::new(alloc, high)?;
    tokens.expect(Mark(MarkKind::CloseRound))?;
    Ok(Expr::RangeCall { place, low, high })
}

/// A range or list in square brackets.
#[cycle(expressions)]
#[tactic(auto, using(dsl_cursor::proofs::Lengths::lengths))]
fn bracket(alloc: Global, tokens: &mut Cursor<'_>) -> Result<Expr, Stop>
    ensures gives { Gives (at_level 9) (in_row read (rule_at Part.Primary 8) tokens.old) result tokens.new }
    ensures shorter { IfOk result (λ found. length tokens.new < length tokens.old) }
{
    let place = tokens.expect(Mark(MarkKind::OpenSquare))?;
    let first = expression(alloc, tokens)?;
    bracket_rest(alloc, place, first, tokens)
}

/// A range or list, of which the opening bracket and the first expression were read.
#[cycle(expressions)]
#[tactic(auto, using(crate::proofs::Steps::step_bracket_rest, crate::proofs::ExprForests::span_forest, crate::proofs::ExprForests::listed_forest, dsl_cursor::proofs::Lengths::lengths))]
fn bracket_rest(
    alloc: Global,
    place: Place,
    first: Expr,
    tokens: &mut Cursor<'_>,
) -> Result<Expr, Stop>
    ensures front { IfOk result (λ e. at_level 9 e ≡ written.mark_at place MarkKind.OpenSquare (sub (at_level 0 first) (sub (level.bracket_rest (at_level 9 e)) nil))) }
    ensures rest { Gives (λ e. level.bracket_rest (at_level 9 e)) (read Part.BracketRest tokens.old) result tokens.new }
    ensures shorter { IfOk result (λ found. length tokens.new < length tokens.old) }
{
    if tokens.take(Mark(MarkKind::TwoDots)).is_some() {
        let low = Boxed::new(alloc, first)?;
        let high = expression(alloc, tokens)?;
        let high = Boxed::new(alloc, high)?;
        tokens.expect(Mark(MarkKind::CloseSquare))?;
        return Ok(Expr::Span { place, low, high });
    }
    let items = listed(alloc, first, tokens)?;
    tokens.expect(Mark(MarkKind::CloseSquare))?;
    Ok(Expr::Listed { place, items })
}

/// The items of a list, of which the first was read.
#[cycle(expressions)]
#[tactic(auto, using(dsl_cursor::proofs::Lengths::lengths))]
fn listed(alloc: Global, first: Expr, tokens: &mut Cursor<'_>) -> Result<Row<Expr>, Stop>
    ensures ok { IfOk result (λ items. IsRow Part.ListedTail items_of (first ∷ []) items tokens.old tokens.new) }
    ensures err { IfErr result (λ e. e ≢ Memory → read Part.ListedTail tokens.old ≡ Err e) }
    ensures shorter { IfOk result (λ found. length tokens.new ≤ length tokens.old) }
{
    let mut items = Row::new(alloc);
    items.push(first)?;
    'items: while let Some(_) = tokens.take(Mark(MarkKind::Comma)) {
        let item = expression(alloc, tokens)?;
        items.push(item)?;
    }
    Ok(items)
}
