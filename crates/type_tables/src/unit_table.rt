//! The units of a program.

ghost use Rattle.std.specs.Prelude.{◌≡◌, bytes_eq, find, option_copied, IfOk};
ghost use Rattle.type_members.specs.type_heads.Table.{TableUnit};

use crate::first_places::{FirstPlaces, HasName, found};
use std::alloc::{AllocError, Global};
use std::marker::Model;
use type_members::UnitEntry;

impl HasName for UnitEntry {
    ghost name_of = { λ u. u.name };

    fn own_name(&self) -> &str {
        self.name()
    }
}

/// The units of a program, and the place of each name. Contracts see them as the list of the units.
#[derive(Drop)]
pub struct UnitTable {
    entries: Vec<UnitEntry>,
    places: FirstPlaces,
}

impl Model for UnitTable {
    ghost use Rattle.std.specs.Prelude.{List};
    ghost use Rattle.type_members.specs.type_heads.Table.{TableUnit};
    ghost use Rattle.type_tables.specs.Places.{Places};

    ghost Value = { List TableUnit };

    ghost view = { λ t. t.entries.items };

    ghost invariant = { λ t. Places t.places (λ (u : TableUnit). u.name) t.entries.items };
}

impl UnitTable {
    /// These units.
    pub fn of(alloc: Global, entries: Vec<UnitEntry>) -> Result<UnitTable, AllocError>
        ensures { IfOk result (λ table. table ≡ entries.items) }
    {
        let places = FirstPlaces::of(alloc, entries.as_slice())?;
        Ok(UnitTable { entries, places })
    }

    /// The first unit of that name.
    pub fn named(&self, name: &str) -> Option<&UnitEntry>
        ensures { option_copied result ≡ find (λ (u : TableUnit). bytes_eq u.name name.now) self.now }
    {
        found(&self.places, self.entries.as_slice(), name)
    }
}
