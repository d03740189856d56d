ghost use Rattle.std.specs.Prelude.{◌≡◌, ◌+◌, ◌^◌, ◌<◌, ◌≤◌, ◌≢◌, length, take, drop, IsSome, IfSome, OnOk, IfOk, IfErr, IsTrue, false};
ghost use Rattle.std.specs.Str.{IsUtf8};
ghost use Rattle.dsl_lexer.specs.declared.shape.Shape.TheVariants.{StringShape};
ghost use Rattle.dsl_lexer.specs.Shapes as shapes;
ghost use Rattle.dsl_lexer.specs.Kinds as kinds_of;
ghost use Rattle.dsl_lexer.specs.Room.{HasRoom};
ghost use Rattle.dsl_lexer.specs.Steps as steps;
ghost use Rattle.dsl_lexer.specs.Progress.{CanTake, CanTakeFront, Valid, Reached, Gives, GivesStop};
ghost use Rattle.dsl_lexer.specs.Laws.{OneList, CutOrFault, CutOrFirstFault, OneFault, EndIsLast, OpenedLaw, CharsLaw, DecimalLaw, HexadecimalLaw};
ghost use Rattle.osc_base.specs.Stops.{OnStop};
ghost use Rattle.dsl_lexer.specs.SourceTokens.{TokensCut, IsFirstFault, IsUncut, EndsOnce};

use crate::layout::{self, Layout};
use crate::shape::Shape;
use crate::spot::Spot;
use crate::stop::LexStop;
use crate::{faults, kinds, pieces, scan};
use dsl_tree::{TokenKind, Tokens};
use osc_base::{Fault, FaultCode};
use std::alloc::{AllocError, Global};

/// The length of the longest prefix that is UTF-8.
fn valid_len(bytes: &[u8]) -> usize
    ensures { Valid bytes.now result }
{
    match str::from_utf8(bytes) {
        Ok(_) => bytes.len(),
        Err(e) => e.valid_up_to(),
    }
}

fn stop_at(file: u32, layout: &Layout, fault: (Spot, FaultCode)) -> LexStop
    requires { length layout.now.tokens < 2 ^ 32 }
    ensures { GivesStop file layout.now (steps.Stops fault.0 fault.1) result }
{
    LexStop::At(Fault {
        place: fault.0.place(file, layout.tokens.as_slice().len()),
        code: fault.1,
    })
}

fn take_separator(
    file: u32,
    layout: &mut Layout,
    shape: Shape,
    len: usize,
) -> Result<(), AllocError>
    requires room { HasRoom layout.old len }
    requires some { 1 ≤ len }
    requires separator { shapes.is_lexeme shape ≡ false }
    ensures { OnOk result (layout.new ≡ steps.after_separator file layout.old shape len) }
{
    match shape {
        Shape::Space => layout.take_space(),
        Shape::Tab => layout.take_tab(),
        Shape::Comment => layout.take_comment(len),
        Shape::Joint => layout.take_joint(len),
        _ => layout.take_line_end(file, len)?,
    }
    Ok(())
}

fn take_plain(
    alloc: Global,
    file: u32,
    layout: &mut Layout,
    valid: usize,
    shape: Shape,
    text: &[u8],
) -> Result<(), LexStop>
    requires room { HasRoom layout.old (length text.now) }
    requires some { 1 ≤ length text.now }
    requires behind { layout.old.spot.at ≤ valid }
    requires shape { shapes.IsShape shape text.now }
    requires lexeme { IsTrue (shapes.is_lexeme shape) }
    requires plain { shape ≢ StringShape }
    ensures { Gives file layout.old (steps.lexeme_of file valid layout.old shape text.now (kinds_of.kind_of shape text.now)) result layout.new }
{
    let Some(kind) = pieces::plain_kind(alloc, shape, text)? else {
        return Err(stop_at(file, layout, (layout.spot, FaultCode::Number)));
    };
    let brackets = layout::brackets_behind_token(&kind, layout.brackets);
    if let Some(fault) = faults::lexeme_fault(layout, valid, shape, text, brackets) {
        return Err(stop_at(file, layout, fault));
    }
    layout.take_lexeme(file, text.len(), kind)?;
    Ok(())
}

fn take_string(
    alloc: Global,
    file: u32,
    layout: &mut Layout,
    valid: usize,
    text: &[u8],
) -> Result<(), LexStop>
    requires room { HasRoom layout.old (length text.now) }
    requires behind { layout.old.spot.at ≤ valid }
    requires quotes { 2 ≤ length text.now }
    requires utf8 { layout.old.spot.at + length text.now ≤ valid → IsUtf8 (kinds_of.string_chars text.now) }
    ensures { Gives file layout.old (steps.lexeme_of file valid layout.old StringShape text.now (kinds_of.kind_of StringShape text.now)) result layout.new }
{
    if let Some(fault) = faults::lexeme_fault(
        layout,
        valid,
        Shape::StringShape,
        text,
        layout.brackets,
    ) {
        return Err(stop_at(file, layout, fault));
    }
    let chars = kinds::string_chars(alloc, text)?;
    layout.take_lexeme(file, text.len(), TokenKind::Chars(chars))?;
    Ok(())
}

/// Takes a separator.
fn separate(
    file: u32,
    layout: &mut Layout,
    valid: usize,
    shape: Shape,
    len: usize,
) -> Result<(), LexStop>
    requires room { HasRoom layout.old len }
    requires some { 1 ≤ len }
    requires behind { layout.old.spot.at ≤ valid }
    requires separator { shapes.is_lexeme shape ≡ false }
    ensures { Gives file layout.old (steps.separator_of file valid layout.old shape len) result layout.new }
{
    if faults::has_bad_byte(layout, valid, len) {
        return Err(stop_at(file, layout, faults::bad_byte(layout, valid, len)));
    }
    take_separator(file, layout, shape, len)?;
    Ok(())
}

/// Takes the token of the first `len` bytes.
fn take_token(
    alloc: Global,
    file: u32,
    layout: &mut Layout,
    valid: usize,
    shape: Shape,
    text: &[u8],
) -> Result<(), LexStop>
    requires can { CanTake layout.old valid shape text.now (length text.now) }
    requires behind { layout.old.spot.at ≤ valid }
    requires lexeme { IsTrue (shapes.is_lexeme shape) }
    ensures { Gives file layout.old (steps.lexeme_of file valid layout.old shape text.now (kinds_of.kind_of shape text.now)) result layout.new }
{
    match shape {
        Shape::StringShape => take_string(alloc, file, layout, valid, text),
        _ => take_plain(alloc, file, layout, valid, shape, text),
    }
}

/// Takes the content at the start: a token of `len` bytes, or nothing that fits.
fn take_content(
    alloc: Global,
    file: u32,
    layout: &mut Layout,
    valid: usize,
    shape: Shape,
    rest: &[u8],
    len: Option<usize>,
) -> Result<(), LexStop>
    requires can { IfSome len (CanTake layout.old valid shape rest.now) }
    requires few { length layout.old.tokens < 2 ^ 32 }
    requires more { 0 < length rest.now }
    requires behind { layout.old.spot.at ≤ valid }
    requires lexeme { IsSome len → IsTrue (shapes.is_lexeme shape) }
    ensures { Gives file layout.old (steps.or_stop (steps.white_fault layout.old valid) (steps.content_of file valid layout.old shape rest.now len)) result layout.new }
{
    if let Some(fault) = faults::white_fault(layout, valid) {
        return Err(stop_at(file, layout, fault));
    }
    let Some(len) = len else {
        let code = if scan::is_quote(rest[0]) {
            FaultCode::Text
        } else {
            FaultCode::Character
        };
        return Err(stop_at(file, layout, (layout.spot, code)));
    };
    take_token(alloc, file, layout, valid, shape, &rest[..len])
}

/// Takes the piece at the start of what is left.
fn take_front(
    alloc: Global,
    file: u32,
    layout: &mut Layout,
    valid: usize,
    rest: &[u8],
) -> Result<(), LexStop>
    requires can { CanTakeFront layout.old valid rest.now }
    requires few { length layout.old.tokens < 2 ^ 32 }
    requires more { 0 < length rest.now }
    requires behind { layout.old.spot.at ≤ valid }
    ensures { Gives file layout.old (steps.step_of file valid layout.old rest.now) result layout.new }
{
    let shape = scan::first_shape(rest[0]);
    let len = pieces::piece_len(shape, rest);
    if pieces::is_lexeme(shape) {
        return take_content(alloc, file, layout, valid, shape, rest, len);
    }
    match len {
        Some(len) => separate(file, layout, valid, shape, len),
        None => take_content(alloc, file, layout, valid, shape, rest, None),
    }
}

/// Takes the piece at the layout's spot.
fn step(
    alloc: Global,
    file: u32,
    bytes: &[u8],
    valid: usize,
    layout: &mut Layout,
) -> Result<(), LexStop>
    requires reached { Reached file bytes.now valid layout.old }
    requires valid { Valid bytes.now valid }
    requires more { layout.old.spot.at < length bytes.now }
    requires small { length bytes.now ≤ 1048576 }
    ensures on { OnOk result (Reached file bytes.now valid layout.new × (layout.old.spot.at < layout.new.spot.at)) }
    ensures fault { IfErr result (λ stop. OnStop stop (IsFirstFault file bytes.now)) }
    ensures uncut { IfErr result (λ stop. OnStop stop (λ _. IsUncut file bytes.now)) }
{
    take_front(alloc, file, layout, valid, &bytes[layout.spot.at..])
}

/// Returns the tokens of the bytes, which are those of file number `file`, or the first fault.
///
/// `At` comes exactly if no token list cuts the bytes. Lines and columns count from 1, and a place's token number is
/// the number of tokens before it. The bytes are any: they need not be UTF-8.
pub fn lex(alloc: Global, file: u32, bytes: &[u8]) -> Result<Tokens, LexStop>
    requires { length bytes.now ≤ 1048576 }
    ensures tokens { IfOk result (TokensCut file bytes.now) }
    ensures end { IfOk result EndsOnce }
    ensures fault { IfErr result (λ stop. OnStop stop (IsFirstFault file bytes.now)) }
    ensures uncut { IfErr result (λ stop. OnStop stop (λ _. IsUncut file bytes.now)) }
{
    let valid = valid_len(bytes);
    let mut layout = Layout::new(alloc);
    while layout.spot.at < bytes.len() {
        step(alloc, file, bytes, valid, &mut layout)?;
    }
    Ok(layout.finish(file)?)
}

/// At most one token list cuts some bytes. If one does, there is no fault. If none does, there is a first fault, and at
/// most one. END is the last token. The list of the opened widths, the text of a string and the parts of a number are what
/// they are said to be.
pub fn laws()
    ensures one_list { OneList }
    ensures cut_or_fault { CutOrFault }
    ensures cut_or_first_fault { CutOrFirstFault }
    ensures one_fault { OneFault }
    ensures end_is_last { EndIsLast }
    ensures opened_widths { OpenedLaw }
    ensures chars { CharsLaw }
    ensures decimal { DecimalLaw }
    ensures hexadecimal { HexadecimalLaw }
{}
