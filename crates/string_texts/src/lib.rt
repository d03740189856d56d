//! The texts of the strings in a program.
#![tactic(auto)]

mod declared;
mod exprs;
mod phases;
mod program;
mod sorted;

pub use declared::push_declaration;
pub use exprs::push_texts_in;
pub use program::texts;
pub use sorted::ordered;

// Items of the crates below, for the crates above.
pub use dsl_tree::osc_base::{Boxed, FaultCode, Fraction, Path, gcd};
pub use type_heads::{
    Body, CompoundKind, ConditionEntry, DeclId, Declarations, EnumHit, Exponents, Fault, FieldType,
    Form, Heads, MemberRef, Place, Program, Row, Text, TypeId, TypeKind, Unit, bodies, literal,
    unit_entries,
};
