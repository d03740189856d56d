//! The number of each type, by its name.

ghost use Rattle.std.specs.Prelude.{◌≡◌, ℕ, ◌+◌, ◌<◌, ◌^◌, ◌&&◌, List, Option, None, Some, cond, bytes_eq, length, map, option_copied, IfOk, OnOk};
ghost use Rattle.std.specs.Option.{option_or};
ghost use Rattle.std.specs.HashMap.{get_by_text};
ghost use Rattle.name_scope.specs.Declaring.{same_owner};
ghost use Rattle.type_heads.specs.DeclaredTypes.{Declared};
ghost use Rattle.type_heads.specs.Table.{named};
ghost use Rattle.type_heads.specs.Placing.{seen_type};
ghost use Rattle.type_heads.specs.Names.{place_in, place_within, place_of};

use crate::TypeId;
use crate::own_type::OwnType;
use indexmap::IndexMap;
use std::alloc::{AllocError, Global};

/// The first place of each name of one owner, or of those without an owner.
#[derive(Drop)]
pub struct NameTable {
    places: IndexMap<String, u32>,
}

/// The first place of each name.
#[derive(Drop)]
pub struct NameIndex {
    plain: NameTable,
    owned: IndexMap<String, NameTable>,
}

impl NameTable {
    fn new(alloc: Global) -> NameTable
        ensures { (name : List ℕ) → place_in result name ≡ None }
    {
        NameTable {
            places: IndexMap::new(alloc),
        }
    }

    fn get(&self, name: &str) -> Option<u32>
        ensures { result ≡ place_in self.now name.now }
    {
        self.places.get(name).copied()
    }

    /// Keeps the place for the name, if it has none yet.
    fn note(&mut self, alloc: Global, name: &str, place: u32) -> Result<(), AllocError>
        ensures { OnOk result ((other : List ℕ) → place_in self.new other ≡ option_or (place_in self.old other) (cond (bytes_eq name.now other) (Some place) None)) }
    {
        if self.places.contains_key(name) {
            return Ok(());
        }
        let key = String::from_str(alloc, name)?;
        self.places.insert(key, place)?;
        Ok(())
    }
}

/// Takes out the table of an owner. It is empty if there is none.
fn take_table(alloc: Global, owned: &mut IndexMap<String, NameTable>, owner: &str) -> NameTable
    ensures was { (name : List ℕ) → place_in result name ≡ place_within (get_by_text owned.old owner.now) name }
    ensures others { (other : List ℕ) → get_by_text owned.new other ≡ cond (bytes_eq owner.now other) None (get_by_text owned.old other) }
{
    match owned.swap_remove(owner) {
        Some(table) => table,
        None => NameTable::new(alloc),
    }
}

/// The next place. A place that a `u32` doesn't hold counts as out of memory.
pub fn next_place(place: u32) -> Result<u32, AllocError>
    ensures next { IfOk result (λ n. n ≡ place + 1) }
    ensures small { IfOk result (λ n. n < 2 ^ 32) }
{
    place.checked_add(1).ok_or(AllocError)
}

impl NameIndex {
    fn new(alloc: Global) -> NameIndex
        ensures { (owner : Option (List ℕ)) (name : List ℕ) → place_of result owner name ≡ None }
    {
        NameIndex {
            plain: NameTable::new(alloc),
            owned: IndexMap::new(alloc),
        }
    }

    /// The first place of the name. Only a behaviour that is asked for with its owner has one.
    pub fn get(&self, owner: Option<&str>, name: &str) -> Option<u32>
        ensures { result ≡ place_of self.now (option_copied owner.entry) name.now }
    {
        match owner {
            None => self.plain.get(name),
            Some(owner) => self.owned.get(owner)?.get(name),
        }
    }

    fn note_owned(
        &mut self,
        alloc: Global,
        owner: &str,
        name: &str,
        place: u32,
    ) -> Result<(), AllocError>
        ensures { OnOk result ((other : Option (List ℕ)) (text : List ℕ) → place_of self.new other text ≡ option_or (place_of self.old other text) (cond (same_owner (Some owner.now) other && bytes_eq name.now text) (Some place) None)) }
    {
        let key = String::from_str(alloc, owner)?;
        let mut table = take_table(alloc, &mut self.owned, owner);
        table.note(alloc, name, place)?;
        self.owned.insert(key, table)?;
        Ok(())
    }

    /// Keeps the place for the name, if it has none yet.
    fn note(
        &mut self,
        alloc: Global,
        owner: Option<&str>,
        name: &str,
        place: u32,
    ) -> Result<(), AllocError>
        ensures { OnOk result ((other : Option (List ℕ)) (text : List ℕ) → place_of self.new other text ≡ option_or (place_of self.old other text) (cond (same_owner (option_copied owner.entry) other && bytes_eq name.now text) (Some place) None)) }
    {
        match owner {
            None => self.plain.note(alloc, name, place),
            Some(owner) => self.note_owned(alloc, owner, name, place),
        }
    }

    /// The names of the types. More of them than a `u32` counts are out of memory.
    pub fn of(alloc: Global, types: &[OwnType<'_>]) -> Result<NameIndex, AllocError>
        ensures few { OnOk result (length types.now < 2 ^ 32) }
        ensures first { IfOk result (λ t. (owner : Option (List ℕ)) (name : List ℕ) → place_of t owner name ≡ named (map (λ (d : Declared). d.head) (map seen_type types.now)) owner name) }
    {
        let mut index = NameIndex::new(alloc);
        let mut place: u32 = 0;
        for own in types {
            index.note(alloc, own.owner(), own.name(), place)?;
            place = next_place(place)?;
        }
        Ok(index)
    }
}
