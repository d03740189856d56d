ghost use Rattle.std.specs.Prelude.{◌≡◌};
ghost use Rattle.type_heads.specs.Shown.{hit_more};

use crate::TypeId;
use name_scope::DeclId;
use units_si::Exponents;

/// What a type is: a basic type, a physical type with its exponents, an enum, or a type with members.
#[derive(Clone, Copy, PartialEq, Eq)]
pub enum TypeKind {
    Int,
    Uint,
    Float,
    Bool,
    Chars,
    Physical(Exponents),
    Enum,
    Struct,
    Actor,
    Action,
    Scenario,
}

/// Which enum has a member of a name: none, one, or several.
#[derive(Clone, Copy, PartialEq, Eq)]
pub enum EnumHit {
    Absent,
    One(TypeId),
    Several,
}

impl EnumHit {
    /// Which enum has it, if one more has.
    pub fn and(self, of: TypeId) -> EnumHit
        ensures { result ≡ hit_more self of }
    {
        match self {
            EnumHit::Absent => EnumHit::One(of),
            EnumHit::One(_) | EnumHit::Several => EnumHit::Several,
        }
    }
}

/// The type of a field, or of the elements of a list, and their number if it is a list.
#[derive(Debug, Clone, Copy, PartialEq, Eq)]
pub struct FieldType {
    pub of: TypeId,
    pub length: Option<u32>,
}

/// Where a member of a type is written: the declaration or extension, and its place there counted from 0.
///
/// `under` is the innermost conditional subtype that it is under.
#[derive(Clone, Copy)]
pub struct MemberRef {
    pub decl: DeclId,
    pub index: u32,
    pub under: Option<TypeId>,
}
