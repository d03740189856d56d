//! The texts that a string of a program may hold.

ghost use Rattle.std.specs.Prelude.{◌≡◌, ◌≤◌, [], ◌∷◌, flat_map, fold, length, map, IfOk};
ghost use Rattle.type_heads.specs.Texts.{with_text};
ghost use Rattle.string_texts.specs.Ordered.{placed_texts, shown};

use crate::declared::push_declaration;
use crate::sorted::ordered;
use std::alloc::{AllocError, Global};
use std::collections::BTreeSet;
use type_heads::{PlacedDecl, Text};

/// The greatest number of texts.
const MOST_TEXTS: usize = 1_000_000_000;

/// The texts of the strings in declarations, in the order in which they stand.
fn found<'a>(alloc: Global, placed: &[PlacedDecl<'a>]) -> Result<Vec<&'a str>, AllocError>
    ensures { IfOk result (λ texts. map (λ t. t.now) texts.items ≡ flat_map placed_texts placed.now) }
{
    let mut texts = Vec::new(alloc);
    for declaration in placed {
        push_declaration(&mut texts, declaration.declaration)?;
    }
    Ok(texts)
}

/// Copies the texts of a set. More than 1,000,000,000 of them are out of memory.
fn copied(alloc: Global, set: &BTreeSet<&str>) -> Result<Vec<Text>, AllocError>
    ensures texts { IfOk result (λ texts. texts.items ≡ shown set.now) }
    ensures few { IfOk result (λ texts. length texts.items ≤ 1000000000) }
{
    let mut texts = Vec::new(alloc);
    for text in set.iter() {
        texts.push(Text::copy(alloc, text)?)?;
    }
    if texts.len() > MOST_TEXTS {
        return Err(AllocError);
    }
    Ok(texts)
}

/// The texts that a string may hold: those of all strings in the declarations, and the empty text, in byte order and
/// each once. More than 1,000,000,000 of them are out of memory.
pub fn texts(alloc: Global, placed: &[PlacedDecl<'_>]) -> Result<Vec<Text>, AllocError>
    ensures texts { IfOk result (λ texts. texts.items ≡ fold with_text ([] ∷ []) (flat_map placed_texts placed.now)) }
    ensures few { IfOk result (λ texts. length texts.items ≤ 1000000000) }
{
    let found = found(alloc, placed)?;
    let set = ordered(alloc, found.as_slice())?;
    copied(alloc, &set)
}
