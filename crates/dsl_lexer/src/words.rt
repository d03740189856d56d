//! The words of the language, by their lengths: a text is compared with the words of its own length alone.

ghost use Rattle.std.specs.Prelude.{◌≡◌, map, true};
ghost use Rattle.dsl_lexer.specs.Shapes as shapes;
ghost use Rattle.dsl_lexer.specs.Kinds.{all_words, is_by_length, words};
ghost use Rattle.dsl_lexer.specs.Kinds as kinds;

use LanguageWord::{LeftOut, Reserved};
use dsl_tree::{ExcludedWord, WordKind};

/// A word of the language, which no name may be.
#[derive(Clone, Copy)]
pub enum LanguageWord {
    /// A word of the profile.
    Reserved(WordKind),
    /// A word that the profile leaves out.
    LeftOut(ExcludedWord),
}

/// The words of the language: in row `n` those of `n` letters.
const WORDS: [&[(&[u8], LanguageWord)]; 15] = [
    &[],
    &[],
    &[
        (b"is", Reserved(WordKind::IsWord)),
        (b"of", Reserved(WordKind::OfWord)),
        (b"do", Reserved(WordKind::DoWord)),
        (b"it", Reserved(WordKind::ItWord)),
        (b"in", Reserved(WordKind::InWord)),
        (b"or", Reserved(WordKind::OrWord)),
        (b"on", LeftOut(ExcludedWord::OnWord)),
    ],
    &[
        (b"and", Reserved(WordKind::AndWord)),
        (b"not", Reserved(WordKind::NotWord)),
        (b"var", LeftOut(ExcludedWord::VarWord)),
        (b"def", LeftOut(ExcludedWord::DefWord)),
    ],
    &[
        (b"type", Reserved(WordKind::TypeWord)),
        (b"unit", Reserved(WordKind::UnitWord)),
        (b"enum", Reserved(WordKind::EnumWord)),
        (b"list", Reserved(WordKind::ListWord)),
        (b"keep", Reserved(WordKind::KeepWord)),
        (b"hard", Reserved(WordKind::HardWord)),
        (b"wait", Reserved(WordKind::WaitWord)),
        (b"with", Reserved(WordKind::WithWord)),
        (b"true", Reserved(WordKind::TrueWord)),
        (b"emit", LeftOut(ExcludedWord::EmitWord)),
        (b"rise", LeftOut(ExcludedWord::RiseWord)),
        (b"fall", LeftOut(ExcludedWord::FallWord)),
        (b"call", LeftOut(ExcludedWord::CallWord)),
    ],
    &[
        (b"actor", Reserved(WordKind::ActorWord)),
        (b"range", Reserved(WordKind::RangeWord)),
        (b"false", Reserved(WordKind::FalseWord)),
        (b"event", LeftOut(ExcludedWord::EventWord)),
        (b"until", LeftOut(ExcludedWord::UntilWord)),
        (b"every", LeftOut(ExcludedWord::EveryWord)),
        (b"cover", LeftOut(ExcludedWord::CoverWord)),
    ],
    &[
        (b"import", Reserved(WordKind::ImportWord)),
        (b"struct", Reserved(WordKind::StructWord)),
        (b"action", Reserved(WordKind::ActionWord)),
        (b"extend", Reserved(WordKind::ExtendWord)),
        (b"serial", Reserved(WordKind::SerialWord)),
        (b"one_of", Reserved(WordKind::OneOfWord)),
        (b"export", LeftOut(ExcludedWord::ExportWord)),
        (b"sample", LeftOut(ExcludedWord::SampleWord)),
        (b"global", LeftOut(ExcludedWord::GlobalWord)),
        (b"record", LeftOut(ExcludedWord::RecordWord)),
    ],
    &[
        (b"default", Reserved(WordKind::DefaultWord)),
        (b"elapsed", Reserved(WordKind::ElapsedWord)),
    ],
    &[
        (b"scenario", Reserved(WordKind::ScenarioWord)),
        (b"inherits", Reserved(WordKind::InheritsWord)),
        (b"parallel", Reserved(WordKind::ParallelWord)),
        (b"external", LeftOut(ExcludedWord::ExternalWord)),
        (b"modifier", LeftOut(ExcludedWord::ModifierWord)),
    ],
    &[(b"namespace", LeftOut(ExcludedWord::NamespaceWord))],
    &[],
    &[],
    &[],
    &[],
    &[(b"remove_default", Reserved(WordKind::RemoveDefaultWord))],
];

/// What these words have for the text. The first bytes are compared before the texts, since few words share theirs.
fn entry(text: &[u8], words: &[(&[u8], LanguageWord)]) -> Option<LanguageWord>
    ensures { result ≡ shapes.entry text.now (map (λ e. (e.0.now, e.1)) words.now) }
{
    for (word, kind) in words {
        if word.first() == text.first() && text == *word {
            return Some(*kind);
        }
    }
    None
}

/// What the words of the text's length have for it.
fn entry_in(text: &[u8], rows: &[&[(&[u8], LanguageWord)]]) -> Option<LanguageWord>
    requires { is_by_length 0 (map (λ row. map (λ e. (e.0.now, e.1)) row.now) rows.now) ≡ true }
    ensures { result ≡ shapes.entry text.now (all_words (map (λ row. map (λ e. (e.0.now, e.1)) row.now) rows.now)) }
{
    match rows.get(text.len()) {
        Some(words) => entry(text, *words),
        None => None,
    }
}

/// The word of the language that a text is.
pub fn word(text: &[u8]) -> Option<LanguageWord>
    ensures { result ≡ shapes.entry text.now words }
{
    entry_in(text, &WORDS)
}

/// Whether a text is a word of the language.
pub fn is_word(text: &[u8]) -> bool
    ensures { result ≡ kinds.is_word text.now }
{
    word(text).is_some()
}
