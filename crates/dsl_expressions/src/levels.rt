//! The rows of operators, by their level, and rows of suffixes.

ghost use Rattle.std.specs.Prelude.{◌≡◌, IfSome, IfNone, map};
ghost use Rattle.dsl_cursor.specs.Words.{true, false, TokenKind, code, has, mark_code, Part, first, starts, at, Tries};
ghost use Rattle.dsl_expressions.specs.Words.{operator_kind, sign_kind, operators, row_node, post_node, suffix_tree, is_named, ends_named};

use dsl_cursor::Cursor;
use dsl_cursor::Sign::{Mark, Word};
use dsl_tree::osc_base::{Boxed, Place, Row};
use dsl_tree::{Expr, Further, MarkKind, Operator, RelationSign, Suffix, TokenKind, WordKind};

/// A row of operators: `or`, `and`, `+` and `-`, or `*` and `/`.
#[derive(Clone, Copy)]
pub enum RowLevel {
    OrRow,
    AndRow,
    SumRow,
    ProductRow,
}

/// The place and the operator of the first token, if it is an operator of the row.
#[tactic(auto, using(dsl_cursor::proofs::Lengths::take_within))]
pub fn take_operator(tokens: &mut Cursor<'_>, row: RowLevel) -> Option<(Place, Operator)>
    ensures { Tries (λ x. at (operator_kind x.1) x.0) (operators row) tokens.old result tokens.new }
{
    match row {
        RowLevel::OrRow => Some((tokens.take(Word(WordKind::OrWord))?, Operator::Or)),
        RowLevel::AndRow => Some((tokens.take(Word(WordKind::AndWord))?, Operator::And)),
        RowLevel::SumRow => {
            if let Some(place) = tokens.take(Mark(MarkKind::Plus)) {
                return Some((place, Operator::Plus));
            }
            Some((tokens.take(Mark(MarkKind::Dash))?, Operator::Dash))
        }
        RowLevel::ProductRow => {
            if let Some(place) = tokens.take(Mark(MarkKind::Star)) {
                return Some((place, Operator::Star));
            }
            Some((tokens.take(Mark(MarkKind::Slash))?, Operator::Slash))
        }
    }
}

/// Whether a token is an operator of the row.
fn is_operator(kind: &TokenKind, row: RowLevel) -> bool
    ensures { result ≡ has (operators row) (code kind.now) }
{
    match row {
        RowLevel::OrRow => matches!(kind, TokenKind::Word(WordKind::OrWord)),
        RowLevel::AndRow => matches!(kind, TokenKind::Word(WordKind::AndWord)),
        RowLevel::SumRow => matches!(kind, TokenKind::Mark(MarkKind::Plus | MarkKind::Dash)),
        RowLevel::ProductRow => matches!(kind, TokenKind::Mark(MarkKind::Star | MarkKind::Slash)),
    }
}

/// Whether the first token is an operator of the row.
pub fn begins_operator(tokens: &Cursor<'_>, row: RowLevel) -> bool
    ensures { result ≡ starts (operators row) tokens.now }
{
    let (next, _) = tokens.split();
    is_operator(&next.kind, row)
}

fn sign_of_mark(mark: MarkKind) -> Option<RelationSign>
    ensures some { IfSome result (λ s. mark_code mark ≡ code (sign_kind s)) }
    ensures none { IfNone result (has (first Part.RelationTail) (mark_code mark) ≡ false) }
{
    match mark {
        MarkKind::Equal => Some(RelationSign::Equal),
        MarkKind::Differ => Some(RelationSign::Differ),
        MarkKind::Below => Some(RelationSign::Below),
        MarkKind::AtMost => Some(RelationSign::AtMost),
        MarkKind::Above => Some(RelationSign::Above),
        MarkKind::AtLeast => Some(RelationSign::AtLeast),
        _ => None,
    }
}

fn sign_of(kind: &TokenKind) -> Option<RelationSign>
    ensures some { IfSome result (λ s. kind.now ≡ sign_kind s) }
    ensures fits { IfSome result (λ s. has (first Part.RelationTail) (code kind.now) ≡ true) }
    ensures none { IfNone result (has (first Part.RelationTail) (code kind.now) ≡ false) }
{
    match kind {
        TokenKind::Mark(mark) => sign_of_mark(*mark),
        TokenKind::Word(WordKind::InWord) => Some(RelationSign::Within),
        _ => None,
    }
}

/// The place and the sign of the first token, if it is the sign of a relation.
#[tactic(auto, unfolding(dsl_cursor::specs::Descent::take))]
pub fn take_sign(tokens: &mut Cursor<'_>) -> Option<(Place, RelationSign)>
    ensures { Tries (λ x. at (sign_kind x.1) x.0) (first Part.RelationTail) tokens.old result tokens.new }
{
    let (first, _) = tokens.split();
    let sign = sign_of(&first.kind)?;
    let token = tokens.pass();
    Some((token.place, sign))
}

/// A row of its first item and the items after it.
pub fn row_of(row: RowLevel, first: Boxed<Expr>, rest: Row<Further>) -> Expr
    ensures { result ≡ row_node row first rest }
{
    match row {
        RowLevel::OrRow => Expr::Or { first, rest },
        RowLevel::AndRow => Expr::And { first, rest },
        RowLevel::SumRow => Expr::Sum { first, rest },
        RowLevel::ProductRow => Expr::Product { first, rest },
    }
}

fn is_name(suffix: &Suffix) -> bool
    ensures { result ≡ is_named (suffix_tree suffix.now) }
{
    matches!(suffix, Suffix::Dot(_))
}

fn ends_in_name(suffixes: &[Suffix]) -> bool
    ensures { result ≡ ends_named (map suffix_tree suffixes.now) }
{
    match suffixes.last() {
        Some(suffix) => is_name(suffix),
        None => false,
    }
}

/// An operand with suffixes.
pub fn with_suffixes(head: Boxed<Expr>, suffixes: Row<Suffix>) -> Expr
    ensures { result ≡ post_node head suffixes }
{
    if ends_in_name(suffixes.as_slice()) {
        Expr::Dot { head, suffixes }
    } else {
        Expr::Index { head, suffixes }
    }
}
