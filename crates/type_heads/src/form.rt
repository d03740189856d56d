ghost use Rattle.std.specs.Prelude.{◌≡◌, ◌<◌, ◌^◌, pos};
ghost use Rattle.type_heads.specs.Seen.{seen_form, kept_form};

use name_scope::dsl_tree::CompoundKind;
use std::marker::Model;
use units_si::Exponents;
use units_si::osc_base::{Row, Text};

/// A member of an enum, and its number.
#[derive(Drop)]
pub struct EnumEntry {
    name: Text,
    number: u64,
}

impl Model for EnumEntry {
    ghost use Rattle.std.specs.Prelude.{◌<◌, ◌^◌};
    ghost use Rattle.type_heads.specs.Form.{EnumMember};

    ghost Value = { EnumMember };

    ghost view = { λ e. record { name = e.name; number = e.number } };

    ghost invariant = { λ e. e.number < 2 ^ 63 };
}

impl EnumEntry {
    /// A member of that name and number.
    pub fn new(name: Text, number: u64) -> EnumEntry
        requires { number < 2 ^ 63 }
        ensures { result ≡ record { name = name; number = number } }
    {
        EnumEntry { name, number }
    }

    /// Its name.
    pub fn name(&self) -> &str
        ensures { result.now ≡ self.now.name }
    {
        self.name.as_str()
    }

    /// Its number.
    pub fn number(&self) -> u64
        ensures number { result ≡ self.now.number }
        ensures small { result < 2 ^ 63 }
    {
        self.number
    }

    /// Its number as one with a sign.
    pub fn value(&self) -> i64
        ensures { result ≡ pos self.now.number }
    {
        self.number as i64
    }
}

/// What a type is, as its head keeps it.
#[derive(Drop)]
pub enum OwnForm {
    Int,
    Uint,
    Float,
    Truth,
    Chars,
    Physical(Option<Exponents>),
    Enum(Row<EnumEntry>),
    Compound(CompoundKind),
}

/// What a type is.
///
/// A physical type has no exponents if its brackets have a fault. The members of an enum are its own, in order,
/// and then those of its extensions.
#[derive(Clone, Copy)]
pub enum Form<'a> {
    Int,
    Uint,
    Float,
    Truth,
    Chars,
    Physical(Option<Exponents>),
    Enum(&'a [EnumEntry]),
    Compound(CompoundKind),
}

impl OwnForm {
    /// What it is.
    pub fn get(&self) -> Form<'_>
        ensures { seen_form result ≡ kept_form self.now }
    {
        match self {
            OwnForm::Int => Form::Int,
            OwnForm::Uint => Form::Uint,
            OwnForm::Float => Form::Float,
            OwnForm::Truth => Form::Truth,
            OwnForm::Chars => Form::Chars,
            OwnForm::Physical(exponents) => Form::Physical(*exponents),
            OwnForm::Enum(members) => Form::Enum(members.as_slice()),
            OwnForm::Compound(kind) => Form::Compound(*kind),
        }
    }
}
