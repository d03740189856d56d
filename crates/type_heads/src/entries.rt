ghost use Rattle.std.specs.Prelude.{◌≡◌, Some, None, cond, is_some, option_map};
ghost use Rattle.units_si.specs.osc_base.Fraction.{value};
ghost use Rattle.type_heads.specs.Shown.{shown_field, shown_unit, unit_parts};

use crate::{FieldType, TypeId};
use std::marker::Model;
use units_si::osc_base::{Fraction, Text};
use units_si::{Exponents, Unit};

/// A field of a type.
#[derive(Drop)]
pub struct FieldEntry {
    name: Text,
    of: FieldType,
}

impl Model for FieldEntry {
    ghost use Rattle.type_heads.specs.Table.{TableField};

    ghost Value = { TableField };

    ghost view = { λ f. record { name = f.name; of = f.of.of; length = f.of.length } };
}

impl FieldEntry {
    pub fn new(name: Text, of: FieldType) -> FieldEntry
        ensures { result ≡ record { name = name; of = of.of; length = of.length } }
    {
        FieldEntry { name, of }
    }

    pub fn name(&self) -> &str
        ensures { result.now ≡ self.now.name }
    {
        self.name.as_str()
    }

    /// Its type.
    pub fn of(&self) -> FieldType
        ensures { result ≡ shown_field self.now }
    {
        self.of
    }
}

/// A unit and its name. It has no exponents if its brackets have a fault.
#[derive(Drop)]
pub struct UnitEntry {
    name: Text,
    exponents: Option<Exponents>,
    factor: Fraction,
    offset: Fraction,
}

impl Model for UnitEntry {
    ghost use Rattle.units_si.specs.osc_base.Fraction.{value};
    ghost use Rattle.type_heads.specs.Table.{TableUnit};

    ghost Value = { TableUnit };

    ghost view = { λ u. record { name = u.name; exponents = u.exponents; factor = value u.factor; offset = value u.offset } };
}

impl UnitEntry {
    pub fn new(
        name: Text,
        exponents: Option<Exponents>,
        factor: Fraction,
        offset: Fraction,
    ) -> UnitEntry
        ensures { result ≡ record { name = name; exponents = exponents; factor = value factor; offset = value offset } }
    {
        UnitEntry {
            name,
            exponents,
            factor,
            offset,
        }
    }

    pub fn name(&self) -> &str
        ensures { result.now ≡ self.now.name }
    {
        self.name.as_str()
    }

    /// The unit, if it has exponents.
    pub fn unit(&self) -> Option<Unit>
        ensures { option_map shown_unit result ≡ cond (is_some self.now.exponents) (Some (unit_parts self.now)) None }
    {
        Some(Unit {
            exponents: self.exponents?,
            factor: self.factor,
            offset: self.offset,
        })
    }
}

/// The condition of a conditional subtype: the field that it looks at, and the number that the field must have.
#[derive(Drop)]
pub struct ConditionEntry {
    field: Text,
    value: i64,
    subtype: TypeId,
}

impl Model for ConditionEntry {
    ghost use Rattle.type_heads.specs.Conditions.{Condition};

    ghost Value = { Condition };

    ghost view = { λ c. record { field = c.field; value = c.value; subtype = c.subtype } };
}

impl ConditionEntry {
    pub fn new(field: Text, value: i64, subtype: TypeId) -> ConditionEntry
        ensures { result ≡ record { field = field; value = value; subtype = subtype } }
    {
        ConditionEntry {
            field,
            value,
            subtype,
        }
    }

    pub fn field(&self) -> &str
        ensures { result.now ≡ self.now.field }
    {
        self.field.as_str()
    }

    pub fn value(&self) -> i64
        ensures { result ≡ self.now.value }
    {
        self.value
    }
}
