//! The members of enums, by their names.

ghost use Rattle.std.specs.Prelude.{◌≡◌, ℕ, ◌<◌, ◌^◌, ◌&&◌, List, None, Some, cond, length, bytes_eq, is_none, is_some, pos, IfOk, OnOk};
ghost use Rattle.std.specs.Option.{option_or};
ghost use Rattle.type_heads.specs.EnumNames.{AreNumbers, IsEnumIndex, hit_counted, hit_in, number_at, number_in};
ghost use Rattle.type_heads.specs.Shown.{hit_more};
ghost use Rattle.type_heads.specs.Table.{enum_members};

use crate::form::EnumEntry;
use crate::{EnumHit, Form, Head, TypeId};
use indexmap::IndexMap;
use std::alloc::{AllocError, Global};

/// The number of the first member of each name, of one enum.
#[derive(Drop)]
pub struct NumberTable {
    numbers: IndexMap<String, i64>,
}

impl NumberTable {
    fn new(alloc: Global) -> NumberTable
        ensures { (name : List ℕ) → number_in result name ≡ None }
    {
        NumberTable {
            numbers: IndexMap::new(alloc),
        }
    }

    fn get(&self, name: &str) -> Option<i64>
        ensures { result ≡ number_in self.now name.now }
    {
        self.numbers.get(name).copied()
    }

    fn has(&self, name: &str) -> bool
        ensures { result ≡ is_some (number_in self.now name.now) }
    {
        self.numbers.contains_key(name)
    }

    /// Keeps the number for a name.
    fn put(&mut self, alloc: Global, name: &str, number: i64) -> Result<(), AllocError>
        ensures { OnOk result ((other : List ℕ) → number_in self.new other ≡ cond (bytes_eq name.now other) (Some number) (number_in self.old other)) }
    {
        let key = String::from_str(alloc, name)?;
        self.numbers.insert(key, number)?;
        Ok(())
    }
}

/// Which enum has a member of each name.
#[derive(Drop)]
pub struct HitTable {
    hits: IndexMap<String, EnumHit>,
}

impl HitTable {
    fn new(alloc: Global) -> HitTable
        ensures { (name : List ℕ) → hit_in result name ≡ EnumHit.Absent }
    {
        HitTable {
            hits: IndexMap::new(alloc),
        }
    }

    fn get(&self, name: &str) -> EnumHit
        ensures { result ≡ hit_in self.now name.now }
    {
        match self.hits.get(name) {
            Some(hit) => *hit,
            None => EnumHit::Absent,
        }
    }

    /// Counts one more enum that has a member of the name.
    fn add(&mut self, alloc: Global, name: &str, of: TypeId) -> Result<(), AllocError>
        ensures { OnOk result ((other : List ℕ) → hit_in self.new other ≡ cond (bytes_eq name.now other) (hit_more (hit_in self.old other) of) (hit_in self.old other)) }
    {
        let hit = self.get(name).and(of);
        let key = String::from_str(alloc, name)?;
        self.hits.insert(key, hit)?;
        Ok(())
    }
}

/// The members of all enums, by their names.
#[derive(Drop)]
pub struct EnumIndex {
    tables: Vec<NumberTable>,
    hits: HitTable,
}

impl EnumIndex {
    /// The number of the first member of that name of a type.
    pub fn number(&self, of: TypeId, name: &str) -> Option<i64>
        ensures { result ≡ number_at self.now.tables.items of name.now }
    {
        self.tables.get(of.0 as usize)?.get(name)
    }

    /// Which enum has a member of that name.
    pub fn hit(&self, name: &str) -> EnumHit
        ensures { result ≡ hit_in self.now.hits name.now }
    {
        self.hits.get(name)
    }

    /// The members of the enums among these types.
    pub fn of(alloc: Global, heads: &[Head]) -> Result<EnumIndex, AllocError>
        requires { length heads.now < 2 ^ 32 }
        ensures { IfOk result (λ index. IsEnumIndex index heads.now) }
    {
        let mut tables = Vec::new(alloc);
        let mut hits = HitTable::new(alloc);
        let mut number: u32 = 0;
        for head in heads {
            tables.push(own_table(alloc, &mut hits, TypeId(number), head)?)?;
            number += 1;
        }
        Ok(EnumIndex { tables, hits })
    }
}

/// The numbers of a type's members. Each name of them counts once more among the hits.
fn own_table(
    alloc: Global,
    hits: &mut HitTable,
    of: TypeId,
    head: &Head,
) -> Result<NumberTable, AllocError>
    ensures numbers { IfOk result (λ table. AreNumbers table (enum_members head.now.form)) }
    ensures hits { OnOk result ((name : List ℕ) → hit_in hits.new name ≡ hit_counted (enum_members head.now.form) (hit_in hits.old name) of name) }
{
    match head.form() {
        Form::Enum(members) => table_of(alloc, hits, of, members),
        _ => Ok(NumberTable::new(alloc)),
    }
}

/// The numbers of members. Each name of them counts once more among the hits.
fn table_of(
    alloc: Global,
    hits: &mut HitTable,
    of: TypeId,
    members: &[EnumEntry],
) -> Result<NumberTable, AllocError>
    ensures numbers { IfOk result (λ table. AreNumbers table members.now) }
    ensures hits { OnOk result ((name : List ℕ) → hit_in hits.new name ≡ hit_counted members.now (hit_in hits.old name) of name) }
{
    let mut table = NumberTable::new(alloc);
    for member in members {
        note(alloc, &mut table, hits, of, member)?;
    }
    Ok(table)
}

/// Keeps the number of a member, and counts its name among the hits, if the table doesn't have the name yet.
fn note(
    alloc: Global,
    table: &mut NumberTable,
    hits: &mut HitTable,
    of: TypeId,
    member: &EnumEntry,
) -> Result<(), AllocError>
    ensures numbers { OnOk result ((other : List ℕ) → number_in table.new other ≡ option_or (number_in table.old other) (cond (bytes_eq member.now.name other) (Some (pos member.now.number)) None)) }
    ensures hits { OnOk result ((other : List ℕ) → hit_in hits.new other ≡ cond (bytes_eq member.now.name other && is_none (number_in table.old other)) (hit_more (hit_in hits.old other) of) (hit_in hits.old other)) }
{
    if table.has(member.name()) {
        return Ok(());
    }
    table.put(alloc, member.name(), member.value())?;
    hits.add(alloc, member.name(), of)
}
