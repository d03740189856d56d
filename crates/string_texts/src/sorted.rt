//! Texts in byte order, each once.

ghost use Rattle.std.specs.Prelude.{◌≡◌, ◌++◌, [], ◌∷◌, fold, map, IfOk, OnOk};
ghost use Rattle.type_heads.specs.Texts.{with_text};
ghost use Rattle.string_texts.specs.Ordered.{shown};

use std::alloc::{AllocError, Global};
use std::collections::BTreeSet;
use type_heads::Text;

/// Puts a text in its place, unless it is there.
fn put<'a>(texts: &mut BTreeSet<&'a str>, text: &'a str) -> Result<(), AllocError>
    ensures { OnOk result (shown texts.new ≡ with_text (shown texts.old) text.entry.now) }
{
    texts.insert(text)?;
    Ok(())
}

/// The texts, and the empty text, in byte order and each once.
pub fn ordered<'a>(alloc: Global, found: &[&'a str]) -> Result<BTreeSet<&'a str>, AllocError>
    ensures { IfOk result (λ texts. shown texts ≡ fold with_text ([] ∷ []) (map (λ t. t.now) found.now)) }
{
    let mut texts = BTreeSet::new(alloc);
    put(&mut texts, "")?;
    for text in found {
        put(&mut texts, text)?;
    }
    Ok(texts)
}
