ghost use Rattle.std.specs.Prelude.{◌≡◌, ◌+ℤ◌, ◌-ℤ◌, IfSome};
ghost use Rattle.std.specs.Option.{SomeIff};
ghost use Rattle.osc_base.specs.Number.{IsNearestThousandth};
ghost use Rattle.units_si.specs.Units.{AreExponents, IsExponent, IsSlotValue, LiteralExactly, each, literal_value};

use osc_base::Fraction;

/// The exponents of the eight base units.
#[derive(Debug, Clone, Copy, PartialEq, Eq)]
pub struct Exponents {
    pub kg: i8,
    pub m: i8,
    pub s: i8,
    pub a: i8,
    pub k: i8,
    pub mol: i8,
    pub cd: i8,
    pub rad: i8,
}

/// A unit: a number in it is worth `number * factor + offset` in base units.
#[derive(Debug, Clone, Copy)]
pub struct Unit {
    pub exponents: Exponents,
    pub factor: Fraction,
    pub offset: Fraction,
}

impl Exponents {
    /// The exponents of a product. `None` when one leaves -100 to 100.
    pub fn plus(&self, other: &Exponents) -> Option<Exponents>
        ensures { SomeIff result (AreExponents (each (λ x y. x +ℤ y) self.now other.now)) (each (λ x y. x +ℤ y) self.now other.now) }
    {
        Some(Exponents {
            kg: sum(self.kg, other.kg)?,
            m: sum(self.m, other.m)?,
            s: sum(self.s, other.s)?,
            a: sum(self.a, other.a)?,
            k: sum(self.k, other.k)?,
            mol: sum(self.mol, other.mol)?,
            cd: sum(self.cd, other.cd)?,
            rad: sum(self.rad, other.rad)?,
        })
    }

    /// The exponents of a quotient. `None` when one leaves -100 to 100.
    pub fn minus(&self, other: &Exponents) -> Option<Exponents>
        ensures { SomeIff result (AreExponents (each (λ x y. x -ℤ y) self.now other.now)) (each (λ x y. x -ℤ y) self.now other.now) }
    {
        Some(Exponents {
            kg: difference(self.kg, other.kg)?,
            m: difference(self.m, other.m)?,
            s: difference(self.s, other.s)?,
            a: difference(self.a, other.a)?,
            k: difference(self.k, other.k)?,
            mol: difference(self.mol, other.mol)?,
            cd: difference(self.cd, other.cd)?,
            rad: difference(self.rad, other.rad)?,
        })
    }
}

fn sum(x: i8, y: i8) -> Option<i8>
    ensures { SomeIff result (IsExponent (x +ℤ y)) (x +ℤ y) }
{
    exponent(i16::from(x) + i16::from(y))
}

fn difference(x: i8, y: i8) -> Option<i8>
    ensures { SomeIff result (IsExponent (x -ℤ y)) (x -ℤ y) }
{
    exponent(i16::from(x) - i16::from(y))
}

/// An exponent, if it is from -100 to 100.
fn exponent(x: i16) -> Option<i8>
    ensures { SomeIff result (IsExponent x) x }
{
    if -100 <= x && x <= 100 {
        Some(x as i8)
    } else {
        None
    }
}

/// The slot value of a physical literal, a `number` in a `unit`: the nearest thousandth of the base unit, halves
/// upward.
///
/// `None` when one of `times`, `add` and `nearest_thousandth` returns `None`, or when the value leaves -1000000000 to
/// 1000000000.
pub fn literal(number: &Fraction, unit: &Unit) -> Option<i64>
    ensures exact { LiteralExactly number.now unit.now result }
    ensures value { IfSome result (λ count. IsNearestThousandth (literal_value number.now unit.now) count) }
{
    let scaled = number.times(&unit.factor)?;
    let moved = scaled.add(&unit.offset)?;
    slot_value(moved.nearest_thousandth()?)
}

/// A slot value, if it is within its range.
fn slot_value(count: i128) -> Option<i64>
    ensures { SomeIff result (IsSlotValue count) count }
{
    if -1_000_000_000 <= count && count <= 1_000_000_000 {
        Some(count as i64)
    } else {
        None
    }
}
