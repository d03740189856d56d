ghost use Rattle.std.specs.Prelude.{◌≡◌, ℕ, ◌+◌, ◌<◌, ◌^◌, List, Option, None, Some, cond, bytes_eq, length, option_map, option_copied, IfOk, OnOk};
ghost use Rattle.std.specs.Option.{option_or};
ghost use Rattle.name_scope.specs.declared.ids.NameKind.{NameKind};
ghost use Rattle.name_scope.specs.Declaring.{declared_name, declares, first_place, is_called, is_name, same_names, compound_name};
ghost use Rattle.name_scope.specs.Declaring.{behaviour_name};
ghost use Rattle.name_scope.specs.Seen.{seen_name};
ghost use Rattle.name_scope.specs.Tables.{place_in, place_within, place_of};
ghost use Rattle.std.specs.HashMap.{get_by_text};

use crate::NameKind;
use dsl_tree::{CompoundKind, Declaration, Ident, ModifierDecl, QName};
use indexmap::IndexMap;
use std::alloc::{AllocError, Global};

/// The name that a declaration declares: of a type, a unit, a behaviour, or a behaviour with an owner.
#[derive(Clone, Copy)]
pub enum Declared<'a> {
    Type(&'a Ident),
    Unit(&'a Ident),
    Behaviour(&'a Ident),
    Owned { owner: &'a Ident, name: &'a Ident },
}

fn declared_behaviour(name: &QName) -> Declared<'_>
    ensures { seen_name result ≡ behaviour_name name.now.first name.now.second }
{
    match &name.second {
        None => Declared::Behaviour(&name.first),
        Some(second) => Declared::Owned {
            owner: &name.first,
            name: second,
        },
    }
}

fn compound(kind: CompoundKind, name: &QName) -> Declared<'_>
    ensures { seen_name result ≡ compound_name kind name.now }
{
    match kind {
        CompoundKind::Struct | CompoundKind::Actor => Declared::Type(&name.first),
        CompoundKind::Action | CompoundKind::Scenario => declared_behaviour(name),
    }
}

/// The name that a declaration declares; an extension declares none.
pub fn name_declared(declaration: &Declaration) -> Option<Declared<'_>>
    ensures { option_map seen_name result ≡ declared_name declaration.now }
{
    match declaration {
        Declaration::Physical(d) => Some(Declared::Type(&d.name)),
        Declaration::Unit(d) => Some(Declared::Unit(&d.name)),
        Declaration::Enum(d) => Some(Declared::Type(&d.name)),
        Declaration::Compound(d) => Some(compound(d.kind, &d.name)),
        Declaration::MemberExtension(_) | Declaration::EnumExtension(_) => None,
    }
}

/// The place at which each name of one kind is declared first.
#[derive(Drop)]
pub struct NameTable {
    places: IndexMap<String, u32>,
}

impl NameTable {
    fn new(alloc: Global) -> NameTable
        ensures { (name : List ℕ) → place_in result name ≡ None }
    {
        NameTable {
            places: IndexMap::new(alloc),
        }
    }

    /// The place at which the name is declared first.
    pub fn get(&self, name: &str) -> Option<u32>
        ensures { result ≡ place_in self.now name.now }
    {
        self.places.get(name).copied()
    }

    /// Keeps the place for the name, if it has none yet.
    fn note(&mut self, alloc: Global, name: &str, place: u32) -> Result<(), AllocError>
        ensures { OnOk result ((other : List ℕ) → place_in self.new other ≡ option_or (place_in self.old other) (cond (bytes_eq name.now other) (Some place) None)) }
    {
        if self.places.contains_key(name) {
            return Ok(());
        }
        let key = String::from_str(alloc, name)?;
        self.places.insert(key, place)?;
        Ok(())
    }

    /// Keeps the place of a modifier for its name, if the name has none yet.
    fn note_modifier(
        &mut self,
        alloc: Global,
        modifier: &ModifierDecl,
        place: u32,
    ) -> Result<(), AllocError>
        ensures { OnOk result ((other : List ℕ) → place_in self.new other ≡ option_or (place_in self.old other) (cond (is_called other modifier.now) (Some place) None)) }
    {
        self.note(alloc, modifier.name.text.as_str(), place)
    }

    /// The table of the modifiers of a file. More of them than a `u32` counts are out of memory.
    pub fn of(alloc: Global, modifiers: &[ModifierDecl]) -> Result<NameTable, AllocError>
        ensures few { OnOk result (length modifiers.now < 2 ^ 32) }
        ensures first { IfOk result (λ t. (name : List ℕ) → place_in t name ≡ first_place (is_called name) 0 modifiers.now) }
    {
        let mut table = NameTable::new(alloc);
        let mut place: u32 = 0;
        for modifier in modifiers {
            table.note_modifier(alloc, modifier, place)?;
            place = next_place(place)?;
        }
        Ok(table)
    }
}

/// The place at which each name is declared first among the declarations of a file.
#[derive(Drop)]
pub struct DeclTable {
    types: NameTable,
    units: NameTable,
    behaviours: NameTable,
    owned: IndexMap<String, NameTable>,
}

/// The next place. A place that a `u32` doesn't hold counts as out of memory.
fn next_place(place: u32) -> Result<u32, AllocError>
    ensures next { IfOk result (λ n. n ≡ place + 1) }
    ensures small { IfOk result (λ n. n < 2 ^ 32) }
{
    match place.checked_add(1) {
        Some(next) => Ok(next),
        None => Err(AllocError),
    }
}

/// Takes out the table of an owner. It is empty if there is none.
fn take_table(alloc: Global, owned: &mut IndexMap<String, NameTable>, owner: &str) -> NameTable
    ensures was { (name : List ℕ) → place_in result name ≡ place_within (get_by_text owned.old owner.now) name }
    ensures others { (other : List ℕ) → get_by_text owned.new other ≡ cond (bytes_eq owner.now other) None (get_by_text owned.old other) }
{
    match owned.swap_remove(owner) {
        Some(table) => table,
        None => NameTable::new(alloc),
    }
}

impl DeclTable {
    fn new(alloc: Global) -> DeclTable
        ensures { (kind : NameKind) (owner : Option (List ℕ)) (name : List ℕ) → place_of result kind owner name ≡ None }
    {
        DeclTable {
            types: NameTable::new(alloc),
            units: NameTable::new(alloc),
            behaviours: NameTable::new(alloc),
            owned: IndexMap::new(alloc),
        }
    }

    /// The place at which the name is declared first.
    pub fn get(&self, kind: NameKind, owner: Option<&str>, name: &str) -> Option<u32>
        ensures { result ≡ place_of self.now kind (option_copied owner.entry) name.now }
    {
        match (kind, owner) {
            (NameKind::TypeName, None) => self.types.get(name),
            (NameKind::UnitName, None) => self.units.get(name),
            (NameKind::BehaviourName, None) => self.behaviours.get(name),
            (NameKind::BehaviourName, Some(owner)) => self.owned.get(owner)?.get(name),
            (NameKind::TypeName | NameKind::UnitName, Some(_)) | (NameKind::ModifierName, _) =>
                None,
        }
    }

    fn note_owned(
        &mut self,
        alloc: Global,
        owner: &str,
        name: &str,
        place: u32,
    ) -> Result<(), AllocError>
        ensures { OnOk result ((kind : NameKind) (other : Option (List ℕ)) (text : List ℕ) → place_of self.new kind other text ≡ option_or (place_of self.old kind other text) (cond (same_names NameKind.BehaviourName (Some owner.now) name.now kind other text) (Some place) None)) }
    {
        let key = String::from_str(alloc, owner)?;
        let mut table = take_table(alloc, &mut self.owned, owner);
        table.note(alloc, name, place)?;
        self.owned.insert(key, table)?;
        Ok(())
    }

    /// Keeps the place for a declared name, if the name has none yet.
    fn note(&mut self, alloc: Global, declared: Declared<'_>, place: u32) -> Result<(), AllocError>
        ensures { OnOk result ((kind : NameKind) (owner : Option (List ℕ)) (name : List ℕ) → place_of self.new kind owner name ≡ option_or (place_of self.old kind owner name) (cond (is_name kind owner name (Some (seen_name declared.entry))) (Some place) None)) }
    {
        match declared {
            Declared::Type(name) => self.types.note(alloc, name.text.as_str(), place),
            Declared::Unit(name) => self.units.note(alloc, name.text.as_str(), place),
            Declared::Behaviour(name) => self.behaviours.note(alloc, name.text.as_str(), place),
            Declared::Owned { owner, name } => {
                self.note_owned(alloc, owner.text.as_str(), name.text.as_str(), place)
            }
        }
    }

    /// Keeps the place of a declaration for the name that it declares.
    fn note_declaration(
        &mut self,
        alloc: Global,
        declaration: &Declaration,
        place: u32,
    ) -> Result<(), AllocError>
        ensures { OnOk result ((kind : NameKind) (owner : Option (List ℕ)) (name : List ℕ) → place_of self.new kind owner name ≡ option_or (place_of self.old kind owner name) (cond (declares kind owner name declaration.now) (Some place) None)) }
    {
        match name_declared(declaration) {
            Some(declared) => self.note(alloc, declared, place),
            None => Ok(()),
        }
    }

    /// The table of the declarations of a file. More of them than a `u32` counts are out of memory.
    pub fn of(alloc: Global, decls: &[Declaration]) -> Result<DeclTable, AllocError>
        ensures few { OnOk result (length decls.now < 2 ^ 32) }
        ensures first { IfOk result (λ t. (kind : NameKind) (owner : Option (List ℕ)) (name : List ℕ) → place_of t kind owner name ≡ first_place (declares kind owner name) 0 decls.now) }
    {
        let mut table = DeclTable::new(alloc);
        let mut place: u32 = 0;
        for declaration in decls {
            table.note_declaration(alloc, declaration, place)?;
            place = next_place(place)?;
        }
        Ok(table)
    }
}
