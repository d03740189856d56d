//! Sets of what was met so far.

ghost use Rattle.std.specs.Prelude.{◌≡◌, ◌||◌, ℕ, List, [], nat_eq, IfOk, OnOk};
ghost use Rattle.std.specs.List.{list_any};
ghost use Rattle.std.specs.Str.{bytes_eq};

use indexmap::IndexSet;
use std::alloc::{AllocError, Global};
use std::marker::Model;

/// Texts that were met.
#[derive(Drop)]
pub struct TextSet<'a> {
    texts: IndexSet<&'a str>,
}

impl<'a> Model for TextSet<'a> {
    ghost use Rattle.std.specs.Prelude.{List, ℕ};

    ghost Value = { List (List ℕ) };

    ghost use Rattle.std.specs.Prelude.{map};

    ghost view = { λ s. map (λ text. text.now) s.texts.keys };
}

impl<'a> TextSet<'a> {
    /// No texts.
    pub fn new(alloc: Global) -> TextSet<'a>
        ensures { result ≡ [] }
    {
        TextSet {
            texts: IndexSet::new(alloc),
        }
    }

    /// Adds a text. The result says whether it was met before.
    pub fn meet(&mut self, text: &'a str) -> Result<bool, AllocError>
        ensures before { IfOk result (λ is_met. is_met ≡ list_any (bytes_eq text.now) self.old) }
        ensures more { OnOk result ((other : List ℕ) → list_any (bytes_eq other) self.new ≡ (bytes_eq other text.now || list_any (bytes_eq other) self.old)) }
    {
        let is_new = self.texts.insert(text)?;
        Ok(!is_new)
    }
}

/// Numbers that were met.
#[derive(Drop)]
pub struct NumberSet {
    numbers: IndexSet<u128>,
}

impl Model for NumberSet {
    ghost use Rattle.std.specs.Prelude.{List, ℕ};

    ghost Value = { List ℕ };

    ghost view = { λ s. s.numbers.keys };
}

impl NumberSet {
    /// No numbers.
    pub fn new(alloc: Global) -> NumberSet
        ensures { result ≡ [] }
    {
        NumberSet {
            numbers: IndexSet::new(alloc),
        }
    }

    /// Adds a number. The result says whether it was met before.
    pub fn meet(&mut self, number: u128) -> Result<bool, AllocError>
        ensures before { IfOk result (λ is_met. is_met ≡ list_any (nat_eq number) self.old) }
        ensures more { OnOk result ((other : ℕ) → list_any (nat_eq other) self.new ≡ (nat_eq other number || list_any (nat_eq other) self.old)) }
    {
        let is_new = self.numbers.insert(number)?;
        Ok(!is_new)
    }
}
