//! The piece at the start of a slice, and the token that it is.

ghost use Rattle.std.specs.Prelude.{◌≢◌, option_map, IsSome, ◌≡◌, ◌<◌, ◌≤◌, Option, Some, None, length, IfOk, IfSome, IsTrue, true, false};
ghost use Rattle.std.specs.Str.{IsAscii};
ghost use Rattle.dsl_tree.specs.declared.token.TokenKind.TheVariants.{Mark};
ghost use Rattle.dsl_lexer.specs.Shapes as shapes;
ghost use Rattle.dsl_lexer.specs.Kinds.{kind_of};
ghost use Rattle.dsl_lexer.specs.Scan as scan_of;
ghost use Rattle.dsl_lexer.specs.declared.shape.Shape.TheVariants.{StringShape};

use crate::shape::Shape;
use crate::{kinds, marks, scan};
use dsl_tree::TokenKind;
use std::alloc::{AllocError, Global};

/// Whether a piece of the shape is there for a token.
pub fn is_lexeme(shape: Shape) -> bool
    ensures { result ≡ shapes.is_lexeme shape }
{
    match shape {
        Shape::MarkShape | Shape::NameShape | Shape::NumberShape | Shape::StringShape => true,
        _ => false,
    }
}

fn joint_len(rest: &[u8]) -> Option<usize>
    requires { 0 < length rest.now }
    ensures value { result ≡ scan_of.joint_len rest.now }
    ensures within { IfSome result (λ n. n ≤ length rest.now) }
{
    let n = scan::line_end_len(&rest[1..])?;
    Some(n + 1)
}

fn mark_len(rest: &[u8]) -> Option<usize>
    ensures value { result ≡ scan_of.mark_len rest.now }
{
    let (_, n) = marks::mark(rest)?;
    Some(n)
}

fn string_len(rest: &[u8]) -> Option<usize>
    ensures value { result ≡ scan_of.string_len rest.now }
    ensures within { IfSome result (λ n. n ≤ length rest.now) }
{
    match rest {
        [quote, more @ ..] => Some(scan::closing(*quote, more)? + 1),
        [] => None,
    }
}

/// The length of the piece at the start, whose first byte is of this shape.
pub fn piece_len(shape: Shape, rest: &[u8]) -> Option<usize>
    requires { 0 < length rest.now }
    ensures { result ≡ scan_of.piece_len shape rest.now }
{
    match shape {
        Shape::Space | Shape::Tab => Some(1),
        Shape::Comment => Some(scan::comment_len(rest)),
        Shape::LineEnd => scan::line_end_len(rest),
        Shape::Joint => joint_len(rest),
        Shape::MarkShape => mark_len(rest),
        Shape::NameShape => Some(scan::name_run(rest)),
        Shape::NumberShape => Some(scan::number_len(rest)),
        Shape::StringShape => string_len(rest),
    }
}

/// The token that a text is, but for strings.
pub fn plain_kind(alloc: Global, shape: Shape, text: &[u8]) -> Result<Option<TokenKind>, AllocError>
    requires shape { shapes.IsShape shape text.now }
    requires lexeme { IsTrue (shapes.is_lexeme shape) }
    requires plain { shape ≢ StringShape }
    ensures { IfOk result (λ kind. kind ≡ kind_of shape text.now) }
{
    match shape {
        Shape::MarkShape => Ok(mark_token(text)),
        Shape::NameShape => Ok(Some(kinds::name_kind(alloc, text)?)),
        _ => kinds::number_kind(alloc, text),
    }
}

fn mark_token(text: &[u8]) -> Option<TokenKind>
    requires { IsSome (shapes.entry text.now shapes.marks) }
    ensures { result ≡ option_map Mark (shapes.entry text.now shapes.marks) }
{
    match marks::mark_kind(text) {
        Some(mark) => Some(TokenKind::Mark(mark)),
        None => None,
    }
}
