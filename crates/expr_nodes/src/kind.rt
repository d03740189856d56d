//! The kinds of expressions.

ghost use Rattle.std.specs.Prelude.{◌≡◌, ◌&&◌};
ghost use Rattle.expr_nodes.specs.Kinds.{object_type as type_of_object, is_number as number, is_truth as truth, same_units as of_one_unit, are_alike as alike};
ghost use Rattle.type_model.specs.osc_base.Comparisons.{same_number};
ghost use Rattle.type_model.specs.units_si.ExponentTests.{same_exponents};
ghost use Rattle.expr_nodes.specs.Kinds as Kinds;
ghost use Rattle.expr_nodes.specs.Seen.{seen_kind};

use type_model::{Exponents, TypeId};

/// What a phase makes.
#[derive(Debug, Clone, Copy, PartialEq, Eq)]
pub enum Made {
    /// No object.
    Nothing,
    /// What its invocation would tell, which isn't resolved.
    Unknown,
    /// An object of the type.
    Makes(TypeId),
}

/// What an expression stands for.
#[derive(Debug, Clone, Copy, PartialEq, Eq)]
pub enum ValueKind {
    /// A truth value.
    Truth,
    /// A number, with the exponents of its unit.
    Number(Exponents),
    /// A member of the enum.
    Member(TypeId),
    /// A text.
    Chars,
    /// A whole object of the type.
    Object(TypeId),
    /// A whole phase.
    Phase(Made),
}

impl ValueKind {
    /// A number, of any unit.
    pub fn is_number(&self) -> bool
        ensures { result ≡ number (seen_kind self.now) }
    {
        match self {
            ValueKind::Number(_) => true,
            ValueKind::Truth
            | ValueKind::Member(_)
            | ValueKind::Chars
            | ValueKind::Object(_)
            | ValueKind::Phase(_) => false,
        }
    }

    /// The type of a whole object.
    pub fn object_type(&self) -> Option<TypeId>
        ensures { result ≡ type_of_object (seen_kind self.now) }
    {
        match self {
            ValueKind::Object(of) => Some(*of),
            ValueKind::Truth
            | ValueKind::Number(_)
            | ValueKind::Member(_)
            | ValueKind::Chars
            | ValueKind::Phase(_) => None,
        }
    }

    /// A truth value.
    pub fn is_truth(&self) -> bool
        ensures { result ≡ truth (seen_kind self.now) }
    {
        match self {
            ValueKind::Truth => true,
            ValueKind::Number(_)
            | ValueKind::Member(_)
            | ValueKind::Chars
            | ValueKind::Object(_)
            | ValueKind::Phase(_) => false,
        }
    }

    /// Two numbers of one unit, but for its factor.
    pub fn has_units_of(&self, other: &ValueKind) -> bool
        ensures { result ≡ of_one_unit (seen_kind self.now) (seen_kind other.now) }
    {
        match self {
            ValueKind::Number(x) => match other {
                ValueKind::Number(y) => are_same(x, y),
                ValueKind::Truth
                | ValueKind::Member(_)
                | ValueKind::Chars
                | ValueKind::Object(_)
                | ValueKind::Phase(_) => false,
            },
            ValueKind::Truth
            | ValueKind::Member(_)
            | ValueKind::Chars
            | ValueKind::Object(_)
            | ValueKind::Phase(_) => false,
        }
    }

    /// Two kinds that `==` compares: both truth values, both numbers, both members of one enum, or both texts.
    pub fn is_alike(&self, other: &ValueKind) -> bool
        ensures { result ≡ alike (seen_kind self.now) (seen_kind other.now) }
    {
        match self {
            ValueKind::Truth => other.is_truth(),
            ValueKind::Number(_) => other.is_number(),
            ValueKind::Member(of) => other.is_member_of(*of),
            ValueKind::Chars => other.is_text(),
            ValueKind::Object(_) | ValueKind::Phase(_) => false,
        }
    }

    /// A text.
    fn is_text(&self) -> bool
        ensures { result ≡ alike Kinds.ValueKind.Chars (seen_kind self.now) }
    {
        match self {
            ValueKind::Chars => true,
            ValueKind::Truth
            | ValueKind::Number(_)
            | ValueKind::Member(_)
            | ValueKind::Object(_)
            | ValueKind::Phase(_) => false,
        }
    }

    /// A member of the enum.
    fn is_member_of(&self, of: TypeId) -> bool
        ensures { result ≡ alike (Kinds.ValueKind.Member of) (seen_kind self.now) }
    {
        match self {
            ValueKind::Member(other) => of == *other,
            ValueKind::Truth
            | ValueKind::Number(_)
            | ValueKind::Chars
            | ValueKind::Object(_)
            | ValueKind::Phase(_) => false,
        }
    }
}

/// The same exponents.
fn are_same(x: &Exponents, y: &Exponents) -> bool
    ensures { result ≡ same_exponents x.now y.now }
{
    x.kg == y.kg && (x.m == y.m && are_same_from_s(x, y))
}

/// The same exponents from that of `s` on.
fn are_same_from_s(x: &Exponents, y: &Exponents) -> bool
    ensures { result ≡ (same_number x.now.s y.now.s && (same_number x.now.a y.now.a && (same_number x.now.k y.now.k && (same_number x.now.mol y.now.mol && (same_number x.now.cd y.now.cd && same_number x.now.rad y.now.rad))))) }
{
    x.s == y.s && (x.a == y.a && are_same_from_k(x, y))
}

/// The same exponents from that of `k` on.
fn are_same_from_k(x: &Exponents, y: &Exponents) -> bool
    ensures { result ≡ (same_number x.now.k y.now.k && (same_number x.now.mol y.now.mol && (same_number x.now.cd y.now.cd && same_number x.now.rad y.now.rad))) }
{
    x.k == y.k && (x.mol == y.mol && are_same_from_cd(x, y))
}

/// The same exponents from that of `cd` on.
fn are_same_from_cd(x: &Exponents, y: &Exponents) -> bool
    ensures { result ≡ (same_number x.now.cd y.now.cd && same_number x.now.rad y.now.rad) }
{
    x.cd == y.cd && x.rad == y.rad
}
