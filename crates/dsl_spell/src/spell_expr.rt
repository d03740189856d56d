ghost use Rattle.std.specs.Prelude.{◌≡◌};
ghost use Rattle.dsl_spell.specs.Writing.{map, OnOk, row_of, nil, operator_kind, sign_kind, written, listed, mark, ident, expr_tree, suffix_tree, further_tree, wrote, Writes, Fills, Joins, Steps, suffix_tail};

use crate::writer::Writer;
use dsl_tree::{
    Digits, Expr, Further, Ident, MarkKind, Operator, RelationSign, Suffix, TokenKind, WordKind,
};
use std::alloc::AllocError;

fn kind_of_operator(operator: Operator) -> TokenKind
    ensures { result ≡ operator_kind operator }
{
    match operator {
        Operator::Or => TokenKind::Word(WordKind::OrWord),
        Operator::And => TokenKind::Word(WordKind::AndWord),
        Operator::Plus => TokenKind::Mark(MarkKind::Plus),
        Operator::Dash => TokenKind::Mark(MarkKind::Dash),
        Operator::Star => TokenKind::Mark(MarkKind::Star),
        Operator::Slash => TokenKind::Mark(MarkKind::Slash),
    }
}

fn kind_of_sign(sign: RelationSign) -> TokenKind
    ensures { result ≡ sign_kind sign }
{
    match sign {
        RelationSign::Equal => TokenKind::Mark(MarkKind::Equal),
        RelationSign::Differ => TokenKind::Mark(MarkKind::Differ),
        RelationSign::Below => TokenKind::Mark(MarkKind::Below),
        RelationSign::AtMost => TokenKind::Mark(MarkKind::AtMost),
        RelationSign::Above => TokenKind::Mark(MarkKind::Above),
        RelationSign::AtLeast => TokenKind::Mark(MarkKind::AtLeast),
        RelationSign::Within => TokenKind::Word(WordKind::InWord),
    }
}

pub(crate) fn enum_name(w: &mut Writer, of: &Ident, member: &Ident) -> Result<(), AllocError>
    ensures { OnOk result (w.new ≡ wrote w.old (ident of.now (mark MarkKind.Bang (ident member.now nil)))) }
{
    w.name(of)?;
    w.bare_mark(MarkKind::Bang)?;
    w.name(member)
}

/// An expression.
#[cycle(spelling)]
pub(crate) fn push_expr(w: &mut Writer, tree: &Expr) -> Result<(), AllocError>
    ensures { OnOk result (Fills w.old (expr_tree tree.now) w.new) }
{
    push_node(w, tree)
}

#[cycle(spelling)]
fn push_node(w: &mut Writer, tree: &Expr) -> Result<(), AllocError>
    ensures { OnOk result (Writes w.old (written (expr_tree tree.now)) w.new) }
{
    match tree {
        Expr::Implies { place, left, right } => {
            push_expr(w, left.get())?;
            w.mark(*place, MarkKind::Arrow)?;
            push_expr(w, right.get())
        }
        Expr::Or { first, rest }
        | Expr::And { first, rest }
        | Expr::Sum { first, rest }
        | Expr::Product { first, rest } => {
            push_expr(w, first.get())?;
            push_further(w, rest.as_slice())
        }
        Expr::Not { place, part } => {
            w.word(*place, WordKind::NotWord)?;
            push_expr(w, part.get())
        }
        Expr::Relation {
            place,
            sign,
            left,
            right,
        } => {
            push_expr(w, left.get())?;
            w.push(*place, kind_of_sign(*sign))?;
            push_expr(w, right.get())
        }
        Expr::Minus { place, part } => {
            w.mark(*place, MarkKind::Dash)?;
            push_expr(w, part.get())
        }
        Expr::Dot { head, suffixes } | Expr::Index { head, suffixes } => {
            push_expr(w, head.get())?;
            push_suffixes(w, suffixes.as_slice())
        }
        Expr::Number(number) => w.digits(number),
        Expr::Physical { number, unit } => w.physical(number, unit),
        Expr::Chars { place, text } => w.chars(*place, text),
        Expr::Truth { place, value } => w.truth(*place, *value),
        Expr::It(place) => w.word(*place, WordKind::ItWord),
        Expr::Actor(place) => w.word(*place, WordKind::ActorWord),
        Expr::Name(text) => w.name(text),
        Expr::EnumName { of, member } => enum_name(w, of, member),
        Expr::Group { place, inner } => {
            w.mark(*place, MarkKind::OpenRound)?;
            push_expr(w, inner.get())?;
            w.bare_mark(MarkKind::CloseRound)
        }
        Expr::Span { place, low, high } => {
            w.mark(*place, MarkKind::OpenSquare)?;
            push_expr(w, low.get())?;
            w.bare_mark(MarkKind::TwoDots)?;
            push_expr(w, high.get())?;
            w.bare_mark(MarkKind::CloseSquare)
        }
        Expr::Listed { place, items } => {
            w.mark(*place, MarkKind::OpenSquare)?;
            push_items(w, items.as_slice())
        }
        Expr::RangeCall { place, low, high } => {
            w.word(*place, WordKind::RangeWord)?;
            w.bare_mark(MarkKind::OpenRound)?;
            push_expr(w, low.get())?;
            w.bare_mark(MarkKind::Comma)?;
            push_expr(w, high.get())?;
            w.bare_mark(MarkKind::CloseRound)
        }
    }
}

#[cycle(spelling)]
fn push_further(w: &mut Writer, rest: &[Further]) -> Result<(), AllocError>
    ensures { OnOk result (Joins w.old (map further_tree rest.now) w.new) }
{
    'parts: for next in rest {
        w.push(next.place, kind_of_operator(next.operator))?;
        push_expr(w, &next.part)?;
    }
    Ok(())
}

#[cycle(spelling)]
pub(crate) fn push_suffixes(w: &mut Writer, suffixes: &[Suffix]) -> Result<(), AllocError>
    ensures { OnOk result (Writes w.old (suffix_tail (map suffix_tree suffixes.now)) w.new) }
{
    'suffixes: for suffix in suffixes {
        push_suffix(w, suffix)?;
    }
    Ok(())
}

#[cycle(spelling)]
fn push_suffix(w: &mut Writer, suffix: &Suffix) -> Result<(), AllocError>
    ensures { OnOk result (Steps suffix_tail (suffix_tree suffix.now) w.old w.new) }
{
    match suffix {
        Suffix::Dot(text) => {
            w.bare_mark(MarkKind::Dot)?;
            w.name(text)
        }
        Suffix::Index { place, index } => {
            w.mark(*place, MarkKind::OpenSquare)?;
            push_expr(w, index)?;
            w.bare_mark(MarkKind::CloseSquare)
        }
    }
}

// the items of a list, and its last bracket
#[cycle(spelling)]
fn push_items(w: &mut Writer, items: &[Expr]) -> Result<(), AllocError>
    ensures { OnOk result (Writes w.old (listed (row_of (map expr_tree items.now))) w.new) }
{
    match items.split_first() {
        None => Ok(()),
        Some((first, others)) => {
            push_expr(w, first)?;
            'others: for item in others {
                w.bare_mark(MarkKind::Comma)?;
                push_expr(w, item)?;
            }
            w.bare_mark(MarkKind::CloseSquare)
        }
    }
}
