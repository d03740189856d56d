ghost use Rattle.std.specs.Prelude.{◌≡◌, ℕ, ℤ, bytes_eq, fold, List, Option, Some, None, map, length, pos, option_copied, option_map, slice_index_or, unwrap_or, IfOk};
ghost use Rattle.std.specs.Int.{int_min, int_max};
ghost use Rattle.string_texts.specs.name_scope.Declaring.{first_place};
ghost use Rattle.string_texts.specs.type_heads.Bounds.{numbers_of, bounds, least_of, greatest_of};
ghost use Rattle.string_texts.specs.type_heads.Table.{base, enum_members, enums_with, field_of, form, head, is_kind_of as is_kind, named, owner};
ghost use Rattle.string_texts.specs.type_heads.Table.{enum_number as number_in, unit as unit_in};
ghost use Rattle.type_model.specs.Kept.{AreKept};
ghost use Rattle.string_texts.specs.type_heads.Shown.{bare, condition_told, hit_of, kind_form, members_told, shown_field, shown_member, shown_unit, unit_parts};

use crate::parts::{MemberTables, ProgramTables};
use crate::refs::MemberRefs;
use std::alloc::{AllocError, Global};
use std::marker::Model;
use string_texts::{
    CompoundKind, ConditionEntry, EnumHit, FieldType, Form, Heads, MemberRef, Row, Text, TypeId,
    TypeKind, Unit,
};
use type_tables::{FieldLists, TextTable, UnitTable};

/// The greatest magnitude of what a field holds.
const GREATEST_VALUE: i64 = 1_000_000_000;

/// The types of a program. Contracts see them as what is told of the types: a table of heads, fields, units and
/// texts, the members of each type, and the conditions of conditional subtypes.
///
/// A number that no type has stands for `int`.
#[derive(Drop)]
pub struct Types {
    heads: Heads,
    fields: FieldLists,
    units: UnitTable,
    texts: TextTable,
    members: MemberRefs,
    conditions: Vec<Option<ConditionEntry>>,
    numbers: Vec<Row<i64>>,
}

impl Model for Types {
    ghost use Rattle.string_texts.specs.type_heads.Told.{Told};

    ghost Value = { Told };

    ghost use Rattle.type_model.specs.Kept.{AreKept};

    ghost view = { λ s. record {
      table = record { heads = s.heads; fields = s.fields; units = s.units; texts = s.texts };
      members = s.members;
      conditions = s.conditions.items;
    } };

    ghost invariant = { λ s. AreKept s.heads s.numbers.items s.units s.texts };
}

impl Types {
    /// The types with these heads and tables.
    pub fn of(heads: Heads, members: MemberTables, program: ProgramTables) -> Types
        requires { AreKept heads program.numbers.items program.units program.texts }
        ensures { result ≡ record { table = record { heads = heads; fields = members.fields; units = program.units; texts = program.texts }; members = members.members; conditions = members.conditions.items } }
    {
        Types {
            heads,
            fields: members.fields,
            units: program.units,
            texts: program.texts,
            members: members.members,
            conditions: members.conditions,
            numbers: program.numbers,
        }
    }

    /// How many types there are.
    pub fn count(&self) -> u32
        ensures { result ≡ length self.now.table.heads }
    {
        self.heads.count()
    }

    /// The first type of that name. Only a behaviour that is asked for with its owner has one.
    pub fn named(&self, owner: Option<&str>, name: &str) -> Option<TypeId>
        ensures { result ≡ named self.now.table.heads (option_copied owner.entry) name.now }
    {
        self.heads.named(owner, name)
    }

    /// The name of a type, without its owner. A number that no type has has none.
    pub fn name(&self, of: TypeId) -> &str
        ensures { result.now ≡ (head self.now.table.heads of).name }
    {
        self.heads.name(of)
    }

    /// The type that a type inherits from.
    pub fn base(&self, of: TypeId) -> Option<TypeId>
        ensures { result ≡ base self.now.table.heads of }
    {
        self.heads.base(of)
    }

    /// Whether a type is `base` or inherits from it.
    pub fn is_kind_of(&self, base: TypeId, of: TypeId) -> bool
        ensures { result ≡ is_kind self.now.table.heads base of }
    {
        self.heads.is_kind_of(base, of)
    }

    /// The actor that owns a behaviour.
    pub fn owner(&self, of: TypeId) -> Option<TypeId>
        ensures { result ≡ owner self.now.table.heads of }
    {
        self.heads.owner(of)
    }

    /// What a type is.
    pub fn kind(&self, of: TypeId) -> TypeKind
        ensures { kind_form result ≡ bare (form self.now.table.heads of) }
    {
        match self.heads.form(of) {
            Form::Int => TypeKind::Int,
            Form::Uint => TypeKind::Uint,
            Form::Float => TypeKind::Float,
            Form::Truth => TypeKind::Bool,
            Form::Chars => TypeKind::Chars,
            Form::Physical(Some(exponents)) => TypeKind::Physical(exponents),
            Form::Physical(None) => unreachable!("each physical type has exponents"),
            Form::Enum(_) => TypeKind::Enum,
            Form::Compound(CompoundKind::Struct) => TypeKind::Struct,
            Form::Compound(CompoundKind::Actor) => TypeKind::Actor,
            Form::Compound(CompoundKind::Action) => TypeKind::Action,
            Form::Compound(CompoundKind::Scenario) => TypeKind::Scenario,
        }
    }

    /// The members of a type, in order.
    pub fn members(&self, alloc: Global, of: TypeId) -> Result<Row<MemberRef>, AllocError>
        ensures { IfOk result (λ members. map shown_member members ≡ members_told self.now of) }
    {
        self.members.members(alloc, of)
    }

    /// The type of the field of that name.
    pub fn field(&self, of: TypeId, name: &str) -> Option<FieldType>
        ensures { result ≡ option_map shown_field (field_of self.now.table of name.now) }
    {
        let field = self.fields.named(of, name)?;
        Some(field.of())
    }

    /// The unit of that name.
    pub fn unit(&self, name: &str) -> Option<Unit>
        ensures { option_map shown_unit result ≡ option_map unit_parts (unit_in self.now.table name.now) }
    {
        match self.units.named(name) {
            Some(unit) => unit.unit(),
            None => None,
        }
    }

    /// The condition of a conditional subtype: the field that it looks at, and the number that this must have.
    pub fn condition(&self, of: TypeId) -> Option<(&str, i64)>
        ensures { option_map {U = List ℕ × ℤ} (λ p. (p.0.now, p.1)) result ≡ option_map {U = List ℕ × ℤ} (λ c. (c.field, c.value)) (condition_told self.now of) }
    {
        match self.conditions.get(of.0 as usize)? {
            Some(condition) => Some((condition.field(), condition.value())),
            None => None,
        }
    }

    /// The numbers of an enum, ascending. Other types have none.
    pub fn numbers(&self, of: TypeId) -> &[i64]
        ensures { result.now ≡ numbers_of (enum_members (form self.now.table.heads of)) }
    {
        match self.numbers.get(of.0 as usize) {
            Some(numbers) => numbers.as_slice(),
            None => &[],
        }
    }

    /// The number of the member of that name. Only an enum has one.
    pub fn enum_number(&self, of: TypeId, name: &str) -> Option<i64>
        ensures { result ≡ option_map pos (number_in self.now.table.heads of name.now) }
    {
        self.heads.enum_number(of, name)
    }

    /// Which enum has a member of that name.
    pub fn enum_with(&self, name: &str) -> EnumHit
        ensures { result ≡ hit_of (enums_with self.now.table.heads name.now) }
    {
        self.heads.enum_with(name)
    }

    /// The texts that a string may hold, each once, in byte order.
    pub fn texts(&self) -> &[Text]
        ensures { result.now ≡ self.now.table.texts }
    {
        self.texts.all()
    }

    /// The number of a text in the list of texts, and 0 of one that isn't in it.
    pub fn text_number(&self, text: &str) -> usize
        ensures { result ≡ unwrap_or (first_place (bytes_eq text.now) 0 self.now.table.texts) 0 }
    {
        self.texts.place(text).unwrap_or(0)
    }

    /// The least and the greatest number that a field of that type may hold: of a float or physical type in
    /// thousandths, of a string the numbers of texts, of a type with members 0.
    pub fn bounds(&self, of: TypeId) -> (i64, i64)
        ensures { result ≡ bounds self.now.table.texts (form self.now.table.heads of) }
    {
        match self.heads.form(of) {
            Form::Int | Form::Float | Form::Physical(_) => (-GREATEST_VALUE, GREATEST_VALUE),
            Form::Uint => (0, GREATEST_VALUE),
            Form::Truth => (0, 1),
            Form::Chars => (0, self.texts.all().len().saturating_sub(1) as i64),
            Form::Enum(_) => ends(self.numbers(of)),
            Form::Compound(_) => (0, 0),
        }
    }
}

/// The least and the greatest of some numbers, and 0 of none.
fn ends(numbers: &[i64]) -> (i64, i64)
    ensures { result ≡ (least_of numbers.now, greatest_of numbers.now) }
{
    match numbers.split_first() {
        Some((first, later)) => (least(*first, later), greatest(*first, later)),
        None => (0, 0),
    }
}

/// The least of a number and those after it.
fn least(first: i64, later: &[i64]) -> i64
    ensures { result ≡ fold int_min first later.now }
{
    let mut least = first;
    for number in later {
        least = least.min(*number);
    }
    least
}

/// The greatest of a number and those after it.
fn greatest(first: i64, later: &[i64]) -> i64
    ensures { result ≡ fold int_max first later.now }
{
    let mut greatest = first;
    for number in later {
        greatest = greatest.max(*number);
    }
    greatest
}
