//! The texts of a program.

ghost use Rattle.std.specs.Prelude.{◌≡◌, bytes_eq, IfOk};
ghost use Rattle.type_members.specs.name_scope.Declaring.{first_place};

use crate::first_places::{FirstPlaces, HasName, place_of};
use std::alloc::{AllocError, Global};
use std::marker::Model;
use type_members::Text;

impl HasName for Text {
    ghost name_of = { λ t. t };

    fn own_name(&self) -> &str {
        self.as_str()
    }
}

/// The texts of a program, and the place of each. Contracts see them as the list of the texts.
#[derive(Drop)]
pub struct TextTable {
    entries: Vec<Text>,
    places: FirstPlaces,
}

impl Model for TextTable {
    ghost use Rattle.std.specs.Prelude.{List, ℕ};
    ghost use Rattle.type_tables.specs.Places.{Places};

    ghost Value = { List (List ℕ) };

    ghost view = { λ t. t.entries.items };

    ghost invariant = { λ t. Places t.places (λ (text : List ℕ). text) t.entries.items };
}

impl TextTable {
    /// These texts.
    pub fn of(alloc: Global, entries: Vec<Text>) -> Result<TextTable, AllocError>
        ensures { IfOk result (λ table. table ≡ entries.items) }
    {
        let places = FirstPlaces::of(alloc, entries.as_slice())?;
        Ok(TextTable { entries, places })
    }

    /// All of them, in order.
    pub fn all(&self) -> &[Text]
        ensures { result.now ≡ self.now }
    {
        self.entries.as_slice()
    }

    /// The first place of a text, counted from 0.
    pub fn place(&self, text: &str) -> Option<usize>
        ensures { result ≡ first_place (bytes_eq text.now) 0 self.now }
    {
        place_of(&self.places, self.entries.as_slice(), text)
    }
}
