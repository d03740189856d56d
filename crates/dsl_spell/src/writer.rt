ghost use Rattle.std.specs.Prelude.{◌≡◌};
ghost use Rattle.dsl_spell.specs.Writing.{OnOk, put, truth_word};

use dsl_tree::{Digits, Ident, MarkKind, Token, TokenKind, Tokens, WordKind};
use osc_base::{Place, Text};
use std::alloc::{AllocError, Global};

/// The tokens that are written so far. A token whose place the tree doesn't hold stands at `at`.
#[derive(Drop)]
pub(crate) struct Writer {
    pub(crate) alloc: Global,
    pub(crate) at: Place,
    pub(crate) tokens: Tokens,
}

impl Writer {
    pub(crate) fn push(&mut self, place: Place, kind: TokenKind) -> Result<(), AllocError>
        ensures { OnOk result (self.new ≡ put self.old place kind) }
    {
        self.tokens.push(Token { place, kind })
    }

    /// A token whose place the tree doesn't hold.
    fn push_bare(&mut self, kind: TokenKind) -> Result<(), AllocError>
        ensures { OnOk result (self.new ≡ put self.old self.old.at kind) }
    {
        let at = self.at;
        self.push(at, kind)
    }

    pub(crate) fn mark(&mut self, place: Place, kind: MarkKind) -> Result<(), AllocError>
        ensures { OnOk result (self.new ≡ put self.old place (TokenKind.Mark kind)) }
    {
        self.push(place, TokenKind::Mark(kind))
    }

    pub(crate) fn word(&mut self, place: Place, kind: WordKind) -> Result<(), AllocError>
        ensures { OnOk result (self.new ≡ put self.old place (TokenKind.Word kind)) }
    {
        self.push(place, TokenKind::Word(kind))
    }

    pub(crate) fn bare_mark(&mut self, kind: MarkKind) -> Result<(), AllocError>
        ensures { OnOk result (self.new ≡ put self.old self.old.at (TokenKind.Mark kind)) }
    {
        self.push_bare(TokenKind::Mark(kind))
    }

    pub(crate) fn bare_word(&mut self, kind: WordKind) -> Result<(), AllocError>
        ensures { OnOk result (self.new ≡ put self.old self.old.at (TokenKind.Word kind)) }
    {
        self.push_bare(TokenKind::Word(kind))
    }

    pub(crate) fn bare_name(&mut self, text: &str) -> Result<(), AllocError>
        ensures { OnOk result (self.new ≡ put self.old self.old.at (TokenKind.Name text.now)) }
    {
        let text = Text::copy(self.alloc, text)?;
        self.push_bare(TokenKind::Name(text))
    }

    pub(crate) fn name(&mut self, name: &Ident) -> Result<(), AllocError>
        ensures { OnOk result (self.new ≡ put self.old name.now.place (TokenKind.Name name.now.text)) }
    {
        let text = Text::copy(self.alloc, name.text.as_str())?;
        self.push(name.place, TokenKind::Name(text))
    }

    pub(crate) fn digits(&mut self, number: &Digits) -> Result<(), AllocError>
        ensures { OnOk result (self.new ≡ put self.old number.now.place (TokenKind.Number number.now.digits number.now.places)) }
    {
        let kind = TokenKind::Number {
            digits: number.digits,
            places: number.places,
        };
        self.push(number.place, kind)
    }

    /// A number with a unit.
    pub(crate) fn physical(&mut self, number: &Digits, unit: &Text) -> Result<(), AllocError>
        ensures { OnOk result (self.new ≡ put self.old number.now.place (TokenKind.Physical number.now.digits number.now.places unit.now)) }
    {
        let kind = TokenKind::Physical {
            digits: number.digits,
            places: number.places,
            unit: Text::copy(self.alloc, unit.as_str())?,
        };
        self.push(number.place, kind)
    }

    /// A string.
    pub(crate) fn chars(&mut self, place: Place, text: &Text) -> Result<(), AllocError>
        ensures { OnOk result (self.new ≡ put self.old place (TokenKind.Chars text.now)) }
    {
        let text = Text::copy(self.alloc, text.as_str())?;
        self.push(place, TokenKind::Chars(text))
    }

    pub(crate) fn truth(&mut self, place: Place, value: bool) -> Result<(), AllocError>
        ensures { OnOk result (self.new ≡ put self.old place (TokenKind.Word (truth_word value))) }
    {
        if value {
            self.word(place, WordKind::TrueWord)
        } else {
            self.word(place, WordKind::FalseWord)
        }
    }

    pub(crate) fn line_end(&mut self) -> Result<(), AllocError>
        ensures { OnOk result (self.new ≡ put self.old self.old.at TokenKind.Newline) }
    {
        self.push_bare(TokenKind::Newline)
    }

    /// The line end and the indentation before a block.
    pub(crate) fn begin_block(&mut self) -> Result<(), AllocError>
        ensures { OnOk result (self.new ≡ put (put self.old self.old.at TokenKind.Newline) self.old.at TokenKind.Indent) }
    {
        self.line_end()?;
        self.push_bare(TokenKind::Indent)
    }

    pub(crate) fn end_block(&mut self) -> Result<(), AllocError>
        ensures { OnOk result (self.new ≡ put self.old self.old.at TokenKind.Dedent) }
    {
        self.push_bare(TokenKind::Dedent)
    }
}
