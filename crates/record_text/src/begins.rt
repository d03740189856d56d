ghost use Rattle.std.specs.Prelude.{◌≡◌, nat_eq};
ghost use Rattle.std.specs.List.{starts_with};
ghost use Rattle.record_text.specs.Scan.{differ_first, other_first};

/// Whether a text begins with a word. Most texts differ from it in their first byte, which is looked at first.
pub(crate) fn begins(text: &[u8], word: &[u8]) -> bool
    ensures { result ≡ starts_with nat_eq text.now word.now }
{
    if differ_first(text, word) {
        false
    } else {
        text.starts_with(word)
    }
}

/// Whether both have a first byte, and these differ.
fn differ_first(text: &[u8], word: &[u8]) -> bool
    ensures { result ≡ differ_first text.now word.now }
{
    match text {
        [first, ..] => is_other(word, *first),
        [] => false,
    }
}

/// Whether a word has a first byte, and it isn't this one.
fn is_other(word: &[u8], byte: u8) -> bool
    ensures { result ≡ other_first word.now byte }
{
    match word {
        [first, ..] => *first != byte,
        [] => false,
    }
}
