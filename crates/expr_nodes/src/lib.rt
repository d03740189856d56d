//! Expressions: their kinds, scales and reaches, their faults, and their values.
#![tactic(auto)]

mod compare;
mod kind;
mod labels;
mod node;
mod parts;
mod scope;
pub mod size;
mod ways;

pub use compare::Compare;
pub use kind::{Made, ValueKind};
pub use labels::{Label, LabelTable};
pub use node::{Earlier, Info, Join, Typed};
pub use parts::Checked;
pub use scope::{It, Scope};
pub use size::Size;
pub use type_model::{
    Boxed, EnumHit, Exponents, Fault, FaultCode, FieldType, Fraction, Path, Place, Row, Text,
    TextTable, TypeId, TypeKind, Types, Unit, gcd, literal,
};
pub use ways::{Turn, leads_into};
