//! A cursor over the tokens that are left to read.
//!
//! If the first token is another one, `take..` returns none, and `expect..` a stop.

ghost use Rattle.std.specs.Prelude.{◌≡◌, ◌∷◌};
ghost use Rattle.dsl_cursor.specs.Words.{[], length, false, Stop, TokenKind, code, small_number, text_code, physical_code, starts, Ended, take, names, Gives, Tries, at, kind_of, sign_codes, name_token, number_token, numbers, whole_numbers, base_names, text_token, physical_token};

use crate::signs::{Sign, is_sign};
use crate::stop::Stop;
use dsl_tree::osc_base::{Place, Text};
use dsl_tree::{Digits, Ident, Token, TokenKind};
use std::alloc::Global;
use std::marker::Model;

/// The tokens that are left. The last one is `End`, and no other one.
#[derive(Drop)]
pub struct Cursor<'a> {
    left: &'a [Token],
}

impl<'a> Model for Cursor<'a> {
    ghost use Rattle.std.specs.Prelude.{List};
    ghost use Rattle.dsl_tree.specs.declared.token.Token.{Token};

    ghost Value = { List Token };

    ghost use Rattle.dsl_cursor.specs.Cursor.{left_of, EndsOnce};

    ghost view = { left_of };

    ghost invariant = { EndsOnce };
}

impl<'a> Cursor<'a> {
    pub fn new(left: &'a [Token]) -> Cursor<'a>
        requires { Ended left.now }
        ensures { result ≡ left.now }
    {
        Cursor { left }
    }

    /// The stop at the first token.
    pub fn miss(&self) -> Stop
        ensures { result ≡ Stop.At (length self.now) }
    {
        Stop::At(self.left.len())
    }

    /// The first token, and those after it.
    pub fn split(&self) -> (&'a Token, &'a [Token])
        ensures { self.now ≡ result.0.now ∷ result.1.now }
    {
        (&self.left[0], &self.left[1..])
    }

    /// Whether the first token is this sign.
    pub fn begins(&self, sign: Sign) -> bool
        ensures { result ≡ starts (sign_codes sign) self.now }
    {
        let (first, _) = self.split();
        is_sign(&first.kind, sign)
    }

    /// Whether the first token is a name.
    pub fn begins_name(&self) -> bool
        ensures { result ≡ starts names self.now }
    {
        let (first, _) = self.split();
        match &first.kind {
            TokenKind::Name(_) => true,
            _ => false,
        }
    }

    /// The place of the sign, if it is the first token, which then is taken.
    #[tactic(auto, unfolding(crate::specs::Descent::take))]
    pub fn take(&mut self, sign: Sign) -> Option<Place>
        ensures { Tries (at (kind_of sign)) (sign_codes sign) self.old result self.new }
    {
        let (first, rest) = self.split();
        if is_sign(&first.kind, sign) {
            self.left = rest;
            Some(first.place)
        } else {
            None
        }
    }

    /// The place of the sign, which has to be the first token.
    #[tactic(auto, unfolding(crate::specs::Descent::take))]
    pub fn expect(&mut self, sign: Sign) -> Result<Place, Stop>
        ensures { Gives (at (kind_of sign)) (take (sign_codes sign) self.old) result self.new }
    {
        let (first, rest) = self.split();
        if is_sign(&first.kind, sign) {
            self.left = rest;
            Ok(first.place)
        } else {
            Err(self.miss())
        }
    }

    /// The name that is the first token.
    #[tactic(auto, unfolding(crate::specs::Descent::take))]
    pub fn expect_name(&mut self, alloc: Global) -> Result<Ident, Stop>
        ensures { Gives name_token (take names self.old) result self.new }
    {
        let (first, rest) = self.split();
        let TokenKind::Name(text) = &first.kind else {
            return Err(self.miss());
        };
        let name = Ident {
            place: first.place,
            text: Text::copy(alloc, text.as_str())?,
        };
        self.left = rest;
        Ok(name)
    }

    /// The name of a base that is the first token: it is neither `factor` nor `offset`.
    #[tactic(auto, unfolding(crate::specs::Descent::take))]
    pub fn expect_base_name(&mut self, alloc: Global) -> Result<Ident, Stop>
        ensures { Gives name_token (take base_names self.old) result self.new }
    {
        if self.begins(Sign::Factor) || self.begins(Sign::Offset) {
            return Err(self.miss());
        }
        self.expect_name(alloc)
    }

    /// The number that is the first token.
    #[tactic(auto, unfolding(crate::specs::Descent::take))]
    pub fn expect_number(&mut self) -> Result<Digits, Stop>
        ensures { Gives number_token (take numbers self.old) result self.new }
    {
        let (first, rest) = self.split();
        let TokenKind::Number { digits, places } = &first.kind else {
            return Err(self.miss());
        };
        self.left = rest;
        Ok(Digits {
            place: first.place,
            digits: *digits,
            places: *places,
        })
    }

    /// The whole number that is the first token.
    #[tactic(auto, unfolding(crate::specs::Descent::take))]
    pub fn expect_whole(&mut self) -> Result<Digits, Stop>
        ensures { Gives number_token (take whole_numbers self.old) result self.new }
    {
        let (first, _) = self.split();
        match &first.kind {
            TokenKind::Number { places, .. } if *places == 0 => self.expect_number(),
            _ => Err(self.miss()),
        }
    }

    /// The whole number of at most 9 that is the first token.
    #[tactic(auto, unfolding(crate::specs::Descent::take))]
    pub fn expect_exponent(&mut self) -> Result<Digits, Stop>
        ensures { Gives number_token (take (small_number ∷ []) self.old) result self.new }
    {
        let (first, _) = self.split();
        match &first.kind {
            TokenKind::Number { digits, places } if *places == 0 && *digits <= 9 => {
                self.expect_number()
            }
            _ => Err(self.miss()),
        }
    }

    /// Whether the first token is a name that is neither `factor` nor `offset`.
    pub fn begins_base_name(&self) -> bool
        ensures { result ≡ starts base_names self.now }
    {
        self.begins_name() && !self.begins(Sign::Factor) && !self.begins(Sign::Offset)
    }

    /// Whether the first token is a string.
    pub fn begins_text(&self) -> bool
        ensures { result ≡ starts (text_code ∷ []) self.now }
    {
        let (first, _) = self.split();
        match &first.kind {
            TokenKind::Chars(_) => true,
            _ => false,
        }
    }

    /// The place and the text of the string that is the first token.
    #[tactic(auto, unfolding(crate::specs::Descent::take))]
    pub fn expect_text(&mut self, alloc: Global) -> Result<(Place, Text), Stop>
        ensures { Gives text_token (take (text_code ∷ []) self.old) result self.new }
    {
        let (first, rest) = self.split();
        let TokenKind::Chars(text) = &first.kind else {
            return Err(self.miss());
        };
        let text = Text::copy(alloc, text.as_str())?;
        self.left = rest;
        Ok((first.place, text))
    }

    /// The place of `End`, which has to be the first token, and then is the only one.
    #[tactic(auto, unfolding(crate::specs::Descent::take))]
    pub fn expect_end(&self) -> Result<Place, Stop>
        ensures { Gives (at TokenKind.End) (take (code TokenKind.End ∷ []) self.now) result [] }
    {
        let _ = &self.left;
        let (first, _) = self.split();
        match &first.kind {
            TokenKind::End => Ok(first.place),
            _ => Err(self.miss()),
        }
    }

    /// The first token, which is taken, and isn't `End`.
    pub fn pass(&mut self) -> &'a Token
        requires { starts (code TokenKind.End ∷ []) self.old ≡ false }
        ensures { self.old ≡ result.now ∷ self.new }
    {
        let (first, rest) = self.split();
        self.left = rest;
        first
    }

    /// The physical literal that is the first token.
    #[tactic(auto, unfolding(crate::specs::Descent::take))]
    pub fn expect_physical(&mut self, alloc: Global) -> Result<(Digits, Text), Stop>
        ensures { Gives physical_token (take (physical_code ∷ []) self.old) result self.new }
    {
        let (first, rest) = self.split();
        let TokenKind::Physical {
            digits,
            places,
            unit,
        } = &first.kind
        else {
            return Err(self.miss());
        };
        let unit = Text::copy(alloc, unit.as_str())?;
        self.left = rest;
        let number = Digits {
            place: first.place,
            digits: *digits,
            places: *places,
        };
        Ok((number, unit))
    }
}
