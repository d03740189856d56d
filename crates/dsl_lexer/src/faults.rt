//! Which fault stands at a place, by what is known there. What is computed is a definition of `specs/Steps.antt`.

ghost use Rattle.std.specs.Prelude.{◌≡◌, ◌+◌, ◌≤◌, ◌<◌, ◌^◌, length, Option, Some, None, IsSome, nat_lt};
ghost use Rattle.dsl_lexer.specs.Kinds.{kind_of};
ghost use Rattle.dsl_lexer.specs.SourceTokens.{token_faults};
ghost use Rattle.dsl_lexer.specs.Steps as steps;
ghost use Rattle.dsl_lexer.specs.Room.{HasRoom};

use crate::layout::Layout;
use crate::scan;
use crate::shape::Shape;
use crate::spot::Spot;
use osc_base::FaultCode;

/// A fault in the white space before a line's first token, a byte that begins no character, or a width that
/// doesn't fit.
pub fn white_fault(layout: &Layout, valid: usize) -> Option<(Spot, FaultCode)>
    ensures { result ≡ steps.white_fault layout.now valid }
{
    if !layout.started {
        if let Some(tab) = layout.tab {
            return Some((tab, FaultCode::Tab));
        }
    }
    if valid == layout.spot.at {
        return Some((layout.spot, FaultCode::Utf8));
    }
    if !layout.started && !layout.widths.fits(layout.spaces) {
        return Some((layout.spot, FaultCode::Indent));
    }
    None
}

/// Whether a byte of the next `len` begins no character.
pub fn has_bad_byte(layout: &Layout, valid: usize, len: usize) -> bool
    requires room { HasRoom layout.now len }
    ensures { result ≡ nat_lt valid (layout.now.spot.at + len) }
{
    valid < layout.spot.at + len
}

/// The first byte that begins no character, if one of the next `len` does so.
pub fn bad_byte(layout: &Layout, valid: usize, len: usize) -> (Spot, FaultCode)
    requires room { HasRoom layout.now len }
    requires behind { layout.now.spot.at ≤ valid }
    requires bad { valid < layout.now.spot.at + len }
    ensures { Some result ≡ steps.end_fault layout.now valid len }
{
    (layout.spot.past(valid - layout.spot.at), FaultCode::Utf8)
}

/// How deep the nesting is after a token, when `brackets` brackets are open after it.
fn depth_behind(layout: &Layout, brackets: u32) -> usize
    requires room { HasRoom layout.now 1 }
    requires brackets { brackets < 2 ^ 31 }
    ensures { result ≡ brackets + length (steps.widths_behind layout.now) }
{
    let blocks = if layout.started {
        layout.widths.len()
    } else {
        layout.widths.len_behind(layout.spaces)
    };
    brackets as usize + blocks
}

/// The code of the first fault at the token's start, in the order of `token_faults`. That the text is that of a token
/// is known before.
fn token_fault(layout: &Layout, shape: Shape, text: &[u8], brackets: u32) -> Option<FaultCode>
    requires room { HasRoom layout.now 1 }
    requires brackets { brackets < 2 ^ 31 }
    requires token { IsSome (kind_of shape text.now) }
    ensures { result ≡ steps.first_code token_faults (steps.lexeme_at layout.now shape text.now brackets) }
{
    let behind = depth_behind(layout, brackets);
    if behind > 64 && layout.brackets as usize + layout.widths.len() < behind {
        return Some(FaultCode::Deep);
    }
    None
}

/// A fault at the token's start, a control character in a string, or a byte that begins no character.
pub fn lexeme_fault(
    layout: &Layout,
    valid: usize,
    shape: Shape,
    text: &[u8],
    brackets: u32,
) -> Option<(Spot, FaultCode)>
    requires room { HasRoom layout.now (length text.now) }
    requires some { 1 ≤ length text.now }
    requires behind { layout.now.spot.at ≤ valid }
    requires brackets { brackets < 2 ^ 31 }
    requires token { IsSome (kind_of shape text.now) }
    ensures { result ≡ steps.lexeme_fault layout.now valid shape text.now brackets }
{
    if let Some(code) = token_fault(layout, shape, text, brackets) {
        return Some((layout.spot, code));
    }
    if let Shape::StringShape = shape {
        if let Some(i) = scan::control_at(text) {
            if layout.spot.at + i < valid {
                return Some((layout.spot.past(i), FaultCode::Character));
            }
        }
    }
    if has_bad_byte(layout, valid, text.len()) {
        return Some(bad_byte(layout, valid, text.len()));
    }
    None
}
