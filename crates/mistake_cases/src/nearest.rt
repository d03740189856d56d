use std::alloc::{AllocError, Global};
use strsim::osa_distance;

/// The longest name, in bytes, that is near another one, since a look at two names takes as long as their lengths multiplied.
const LONGEST: usize = 64;
/// How many names are looked at.
const LOOKS: usize = 10_000;

/// Of the names that are a few edits away from a word, the first of the nearest. Long names aren't looked at, nor more than
/// 10,000 names.
#[derive(Clone, Copy)]
pub struct Nearest<'w, 'a> {
    word: &'w str,
    /// The edits to the name that is found, else one more than may be.
    edits: usize,
    name: Option<&'a str>,
    /// How many more names are looked at.
    looks: usize,
}

impl<'w, 'a> Nearest<'w, 'a> {
    /// No name is found yet. A third of the word's characters may be edited, and at least one.
    pub fn new(word: &'w str) -> Nearest<'w, 'a> {
        Nearest {
            word,
            edits: word.chars().count().max(3) / 3 + 1,
            name: None,
            looks: LOOKS,
        }
    }

    /// Takes the name if it is nearer than the one that is found, and differs from the word.
    pub fn look_at(&mut self, alloc: Global, name: &'a str) -> Result<(), AllocError> {
        if self.word.len().max(name.len()) > LONGEST || name == self.word {
            return Ok(());
        }
        if name.len().abs_diff(self.word.len()) > self.word.len() {
            return Ok(());
        }
        let Some(looks) = self.looks.checked_sub(1) else {
            return Ok(());
        };
        self.looks = looks;
        let edits = osa_distance(alloc, self.word, name)?;
        if edits < self.edits {
            self.edits = edits;
            self.name = Some(name);
        }
        Ok(())
    }

    /// The name that is found.
    pub fn name(&self) -> Option<&'a str> {
        self.name
    }
}

/// The name of a list that is nearest to a word. `None` if none is near.
pub fn nearest_of<'a>(
    alloc: Global,
    word: &str,
    names: &[&'a str],
) -> Result<Option<&'a str>, AllocError> {
    let mut nearest = Nearest::new(word);
    for name in names {
        nearest.look_at(alloc, name)?;
    }
    Ok(nearest.name())
}
