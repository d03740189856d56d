//! What a lexer knows at a place: the logical line, the brackets, the opened widths and the tokens so far.

ghost use Rattle.std.specs.Prelude.{◌≡◌, ◌+◌, ◌*◌, ◌^◌, ◌<◌, ◌≤◌, [], ◌∷◌, ◌++◌, Option, None, Some, length, replicate, OnOk, IfOk};
ghost use Rattle.dsl_tree.specs.declared.token.TokenKind.TheVariants.{Dedent};
ghost use Rattle.dsl_lexer.specs.Layout.{brackets_behind, blocks};
ghost use Rattle.dsl_lexer.specs.Steps as steps;
ghost use Rattle.dsl_lexer.specs.Room.{HasRoom};

use crate::spot::Spot;
use crate::widths::Widths;
use dsl_tree::{MarkKind, Token, TokenKind};
use osc_base::Row;
use std::alloc::{AllocError, Global};

/// What is known after the pieces so far.
#[derive(Drop)]
pub struct Layout {
    /// Where the next piece stands.
    pub spot: Spot,
    /// Whether the logical line has a token.
    pub started: bool,
    /// The spaces of the logical line.
    pub spaces: u32,
    /// The first tab of the logical line.
    pub tab: Option<Spot>,
    /// The number of open brackets.
    pub brackets: u32,
    /// The opened widths.
    pub widths: Widths,
    /// The spot after the last token.
    pub behind: Spot,
    /// The tokens so far.
    pub tokens: Row<Token>,
}

/// The number of open brackets after a token.
pub fn brackets_behind_token(kind: &TokenKind, brackets: u32) -> u32
    requires { brackets + 1 < 2 ^ 32 }
    ensures { result ≡ brackets_behind (Some kind.now) brackets }
{
    match kind {
        TokenKind::Mark(MarkKind::OpenRound) => brackets + 1,
        TokenKind::Mark(MarkKind::OpenSquare) => brackets + 1,
        TokenKind::Mark(MarkKind::CloseRound) => brackets.saturating_sub(1),
        TokenKind::Mark(MarkKind::CloseSquare) => brackets.saturating_sub(1),
        _ => brackets,
    }
}

/// Puts a token of this kind at the spot.
fn push(tokens: &mut Row<Token>, file: u32, spot: Spot, kind: TokenKind) -> Result<(), AllocError>
    requires { length tokens.old < 2 ^ 32 }
    ensures pushed { OnOk result (tokens.new ≡ tokens.old ++ steps.stamped file spot (length tokens.old) (kind ∷ [])) }
    ensures one { OnOk result (length tokens.new ≡ length tokens.old + 1) }
{
    let place = spot.place(file, tokens.as_slice().len());
    tokens.push(Token { place, kind })
}

/// Puts so many DEDENTs at the spot.
fn push_dedents(
    tokens: &mut Row<Token>,
    file: u32,
    spot: Spot,
    count: usize,
) -> Result<(), AllocError>
    requires { length tokens.old + count < 2 ^ 32 }
    ensures pushed { OnOk result (tokens.new ≡ tokens.old ++ steps.stamped file spot (length tokens.old) (replicate count Dedent)) }
    ensures all { OnOk result (length tokens.new ≡ length tokens.old + count) }
{
    for _i in 0..count {
        push(tokens, file, spot, TokenKind::Dedent)?;
    }
    Ok(())
}

/// Puts the tokens that open or close blocks at the first token of a line of this width.
fn push_blocks(
    tokens: &mut Row<Token>,
    widths: &Widths,
    file: u32,
    spot: Spot,
    width: u32,
) -> Result<(), AllocError>
    requires { length tokens.old + length widths.now < 2 ^ 31 }
    ensures pushed { OnOk result (tokens.new ≡ tokens.old ++ steps.stamped file spot (length tokens.old) (blocks width widths.now)) }
    ensures few { OnOk result (length tokens.new < 2 ^ 32) }
{
    if widths.is_widest(width) {
        push(tokens, file, spot, TokenKind::Indent)
    } else {
        push_dedents(tokens, file, spot, widths.count_wider(width))
    }
}

impl Layout {
    /// What is known before the first piece.
    pub fn new(alloc: Global) -> Layout
        ensures { result ≡ steps.at_start }
    {
        Layout {
            spot: Spot::start(),
            started: false,
            spaces: 0,
            tab: None,
            brackets: 0,
            widths: Widths::new(alloc),
            behind: Spot::start(),
            tokens: Row::new(alloc),
        }
    }

    pub fn take_space(&mut self)
        requires { HasRoom self.old 1 }
        ensures { self.new ≡ steps.after_space self.old }
    {
        self.spot = self.spot.past(1);
        self.spaces += 1;
    }

    pub fn take_tab(&mut self)
        requires { HasRoom self.old 1 }
        ensures { self.new ≡ steps.after_tab self.old }
    {
        if self.tab.is_none() {
            self.tab = Some(self.spot);
        }
        self.spot = self.spot.past(1);
    }

    pub fn take_comment(&mut self, len: usize)
        requires { HasRoom self.old len }
        ensures { self.new ≡ steps.after_comment self.old len }
    {
        self.spot = self.spot.past(len);
    }

    pub fn take_joint(&mut self, len: usize)
        requires { HasRoom self.old len }
        ensures { self.new ≡ steps.after_joint self.old len }
    {
        self.spot = self.spot.past_line_feed(len);
    }

    pub fn take_line_end(&mut self, file: u32, len: usize) -> Result<(), AllocError>
        requires { HasRoom self.old len }
        ensures { OnOk result (self.new ≡ steps.after_line_end file self.old len) }
    {
        self.spot = self.spot.past_line_feed(len);
        if self.brackets > 0 {
            return Ok(());
        }
        if self.started {
            push(&mut self.tokens, file, self.behind, TokenKind::Newline)?;
        }
        self.started = false;
        self.spaces = 0;
        self.tab = None;
        Ok(())
    }

    /// Opens or closes blocks if the next token is the first of its line.
    fn begin_line(&mut self, file: u32) -> Result<(), AllocError>
        requires { HasRoom self.old 1 }
        ensures begun { OnOk result (self.new ≡ steps.after_blocks file self.old) }
        ensures few { OnOk result (length self.new.tokens < 2 ^ 32) }
    {
        if self.started {
            return Ok(());
        }
        push_blocks(&mut self.tokens, &self.widths, file, self.spot, self.spaces)?;
        self.widths.begin(self.spaces)
    }

    pub fn take_lexeme(&mut self, file: u32, len: usize, kind: TokenKind) -> Result<(), AllocError>
        requires room { HasRoom self.old len }
        requires some { 1 ≤ len }
        ensures { OnOk result (self.new ≡ steps.after_lexeme file self.old len kind) }
    {
        self.begin_line(file)?;
        self.started = true;
        self.brackets = brackets_behind_token(&kind, self.brackets);
        let spot = self.spot;
        self.spot = spot.past(len);
        self.behind = self.spot;
        push(&mut self.tokens, file, spot, kind)
    }

    /// The tokens of the file, with those that its end brings.
    pub fn finish(self, file: u32) -> Result<Row<Token>, AllocError>
        requires { HasRoom self 0 }
        ensures { IfOk result (λ tokens. tokens ≡ steps.all_tokens file self) }
    {
        let mut tokens = self.tokens;
        if self.brackets == 0 && self.started {
            push(&mut tokens, file, self.behind, TokenKind::Newline)?;
        }
        push_dedents(&mut tokens, file, self.spot, self.widths.len())?;
        push(&mut tokens, file, self.spot, TokenKind::End)?;
        Ok(tokens)
    }
}
