//! The tokens that are one kind each: marks, words, the names that the grammar knows, and the layout.

ghost use Rattle.std.specs.Prelude.{◌≡◌, ◌∷◌};
ghost use Rattle.dsl_cursor.specs.Words.{[], true, TokenKind, code, has, mark_code, word_code, name_code, si_text, factor_text, offset_text, kind_of, sign_codes};

use dsl_tree::{MarkKind, TokenKind, WordKind};

/// A token that holds no text and no number of its own.
#[derive(Clone, Copy)]
pub enum Sign {
    Mark(MarkKind),
    Word(WordKind),
    /// The name `SI`.
    Si,
    /// The name `factor`.
    Factor,
    /// The name `offset`.
    Offset,
    Newline,
    Indent,
    Dedent,
}

fn is_mark(kind: &TokenKind, mark: MarkKind) -> bool
    ensures same { result ≡ has (mark_code mark ∷ []) (code kind.now) }
    ensures mark { result ≡ true → kind.now ≡ TokenKind.Mark mark }
{
    matches!(kind, TokenKind::Mark(m) if *m == mark)
}

fn is_word(kind: &TokenKind, word: WordKind) -> bool
    ensures same { result ≡ has (word_code word ∷ []) (code kind.now) }
    ensures word { result ≡ true → kind.now ≡ TokenKind.Word word }
{
    matches!(kind, TokenKind::Word(w) if *w == word)
}

fn is_si(kind: &TokenKind) -> bool
    ensures same { result ≡ has (name_code si_text ∷ []) (code kind.now) }
    ensures name { result ≡ true → kind.now ≡ TokenKind.Name si_text }
{
    match kind {
        TokenKind::Name(text) => text.as_str() == "SI",
        _ => false,
    }
}

fn is_factor(kind: &TokenKind) -> bool
    ensures same { result ≡ has (name_code factor_text ∷ []) (code kind.now) }
    ensures name { result ≡ true → kind.now ≡ TokenKind.Name factor_text }
{
    match kind {
        TokenKind::Name(text) => text.as_str() == "factor",
        _ => false,
    }
}

fn is_offset(kind: &TokenKind) -> bool
    ensures same { result ≡ has (name_code offset_text ∷ []) (code kind.now) }
    ensures name { result ≡ true → kind.now ≡ TokenKind.Name offset_text }
{
    match kind {
        TokenKind::Name(text) => text.as_str() == "offset",
        _ => false,
    }
}

/// Whether the token is this sign.
pub fn is_sign(kind: &TokenKind, sign: Sign) -> bool
    ensures same { result ≡ has (sign_codes sign) (code kind.now) }
    ensures sign { result ≡ true → kind.now ≡ kind_of sign }
{
    match sign {
        Sign::Mark(mark) => is_mark(kind, mark),
        Sign::Word(word) => is_word(kind, word),
        Sign::Si => is_si(kind),
        Sign::Factor => is_factor(kind),
        Sign::Offset => is_offset(kind),
        Sign::Newline => matches!(kind, TokenKind::Newline),
        Sign::Indent => matches!(kind, TokenKind::Indent),
        Sign::Dedent => matches!(kind, TokenKind::Dedent),
    }
}
