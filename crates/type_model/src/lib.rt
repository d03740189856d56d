//! The types of a program: a table that is worked out once, and the calls that look things up in it.
#![tactic(auto)]

mod lists;
mod parts;
mod refs;
mod types;

pub use lists::member_lists;
pub use parts::{Bodies, MemberTables, ProgramTables};
pub use string_texts::{
    Boxed, EnumHit, Exponents, Fault, FaultCode, FieldType, Fraction, MemberRef, Path, Place, Row,
    Text, TypeId, TypeKind, Unit, gcd, literal,
};
pub use type_tables::{ListedMember, MemberLists, TextTable};
pub use types::Types;
