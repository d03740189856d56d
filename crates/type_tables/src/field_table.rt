//! The fields of a row of members.

ghost use Rattle.std.specs.Prelude.{◌≡◌, drop, length, option_copied, take, IfOk};
ghost use Rattle.type_members.specs.type_heads.Table.{field_in};

use crate::first_places::{FirstPlaces, HasName, found_between};
use std::alloc::{AllocError, Global};
use std::marker::Model;
use type_members::FieldEntry;

impl HasName for FieldEntry {
    ghost name_of = { λ f. f.name };

    fn own_name(&self) -> &str {
        self.name()
    }
}

/// The fields of a row of members, and the place of each name. Contracts see them as the list of the fields.
#[derive(Drop)]
pub struct FieldTable {
    entries: Vec<FieldEntry>,
    places: FirstPlaces,
}

impl Model for FieldTable {
    ghost use Rattle.std.specs.Prelude.{List};
    ghost use Rattle.type_members.specs.type_heads.Table.{TableField};
    ghost use Rattle.type_tables.specs.Places.{Places};

    ghost Value = { List TableField };

    ghost view = { λ t. t.entries.items };

    ghost invariant = { λ t. Places t.places (λ (f : TableField). f.name) t.entries.items };
}

impl FieldTable {
    /// These fields.
    pub fn of(alloc: Global, entries: Vec<FieldEntry>) -> Result<FieldTable, AllocError>
        ensures { IfOk result (λ table. table ≡ entries.items) }
    {
        let places = FirstPlaces::of(alloc, entries.as_slice())?;
        Ok(FieldTable { entries, places })
    }

    /// How many there are.
    pub fn len(&self) -> usize
        ensures { result ≡ length self.now }
    {
        self.entries.len()
    }

    /// The first field of that name from one place to another.
    pub fn named_between(&self, from: usize, to: usize, name: &str) -> Option<&FieldEntry>
        ensures { option_copied result ≡ field_in (drop from (take to self.now)) name.now }
    {
        found_between(&self.places, self.entries.as_slice(), from, to, name)
    }
}
