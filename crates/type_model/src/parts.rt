//! What types are put together from.

ghost use Rattle.std.specs.Prelude.{◌≡◌, ◌<◌, ◌^◌, length, map, IfOk};
ghost use Rattle.string_texts.specs.type_heads.Bodied.{seen_body};
ghost use Rattle.string_texts.specs.type_heads.Gathered.{AreGathered, all_of};
ghost use Rattle.string_texts.specs.type_heads.UnitsPlaced.{units_in};
ghost use Rattle.type_tables.specs.type_members.Listed.{lists_of};
ghost use Rattle.type_model.specs.Built.{AreBodies, AreMemberTables, AreProgramTables, texts_among};

use crate::refs::MemberRefs;
use std::alloc::{AllocError, Global};
use string_texts::{
    Body, ConditionEntry, Declarations, Heads, Row, Text, bodies, texts, unit_entries,
};
use type_tables::{
    FieldLists, MemberLists, Subtypes, TextTable, UnitTable, all_conditions, all_numbers,
};

/// The bodies and the conditional subtypes of all types.
#[derive(Drop)]
pub struct Bodies<'a> {
    pub entries: Vec<Body<'a>>,
    pub subtypes: Subtypes,
}

impl<'a> Bodies<'a> {
    /// Those of the types that are declared.
    pub fn of(
        alloc: Global,
        declarations: &Declarations<'a>,
        heads: &Heads,
    ) -> Result<Bodies<'a>, AllocError>
        requires { AreGathered declarations.now }
        ensures { IfOk result (AreBodies (all_of declarations.now) heads.now) }
    {
        let entries = bodies(alloc, declarations)?;
        let subtypes = Subtypes::build(alloc, heads, entries.as_slice())?;
        Ok(Bodies { entries, subtypes })
    }
}

/// What is worked out of the members of each type.
#[derive(Drop)]
pub struct MemberTables {
    pub fields: FieldLists,
    pub members: MemberRefs,
    pub conditions: Vec<Option<ConditionEntry>>,
}

impl MemberTables {
    /// Those of types with these heads, bodies and members.
    pub fn of(
        alloc: Global,
        heads: &Heads,
        bodies: &[Body<'_>],
        lists: &MemberLists<'_>,
    ) -> Result<MemberTables, AllocError>
        ensures { IfOk result (AreMemberTables heads.now (map seen_body bodies.now) (lists_of lists.now)) }
    {
        let fields = FieldLists::of(alloc, heads, lists)?;
        let members = MemberRefs::of(alloc, lists)?;
        let conditions = all_conditions(alloc, heads, bodies, lists, &fields)?;
        Ok(MemberTables {
            fields,
            members,
            conditions,
        })
    }
}

/// The texts that a string may hold, found by what they say.
fn text_table(alloc: Global, declarations: &Declarations<'_>) -> Result<TextTable, AllocError>
    ensures texts { IfOk result (λ table. table ≡ texts_among (all_of declarations.now)) }
    ensures few { IfOk result (λ table. length table < 2 ^ 32) }
{
    let texts = all_texts(alloc, declarations)?;
    TextTable::of(alloc, texts)
}

/// The texts that a string may hold, each once, in byte order.
fn all_texts(alloc: Global, declarations: &Declarations<'_>) -> Result<Vec<Text>, AllocError>
    ensures texts { IfOk result (λ texts. texts.items ≡ texts_among (all_of declarations.now)) }
    ensures few { IfOk result (λ texts. length texts.items < 2 ^ 32) }
{
    texts(alloc, declarations.placed.as_slice())
}

/// The units of the program, found by their names.
fn unit_table(alloc: Global, declarations: &Declarations<'_>) -> Result<UnitTable, AllocError>
    ensures { IfOk result (λ units. units ≡ units_in (all_of declarations.now)) }
{
    let entries = unit_entries(alloc, declarations)?;
    UnitTable::of(alloc, entries)
}

/// What is worked out of the declarations of a program and the heads of its types.
#[derive(Drop)]
pub struct ProgramTables {
    pub units: UnitTable,
    pub texts: TextTable,
    pub numbers: Vec<Row<i64>>,
}

impl ProgramTables {
    /// Those of these declarations and heads.
    pub fn of(
        alloc: Global,
        declarations: &Declarations<'_>,
        heads: &Heads,
    ) -> Result<ProgramTables, AllocError>
        ensures { IfOk result (AreProgramTables (all_of declarations.now) heads.now) }
    {
        let units = unit_table(alloc, declarations)?;
        let texts = text_table(alloc, declarations)?;
        let numbers = all_numbers(alloc, heads)?;
        Ok(ProgramTables {
            units,
            texts,
            numbers,
        })
    }
}
