//! Types of a program: what it declares, and the members of each type as written.
#![tactic(auto)]

mod ancestors;
mod body;
mod brackets;
mod decimals;
mod declarations;
mod entries;
mod enum_index;
mod form;
mod form_tests;
mod grouping;
mod head;
mod heads;
mod heads_build;
mod kinds;
mod lines;
mod names;
mod numbering;
mod own_type;
mod placed;
mod type_id;
mod units;

pub use body::{Body, WrittenMember, bodies};
pub use brackets::exponents;
pub use declarations::Declarations;
pub use entries::{ConditionEntry, FieldEntry, UnitEntry};
pub use form::{EnumEntry, Form};
pub use head::Head;
pub use heads::Heads;
pub use kinds::{EnumHit, FieldType, MemberRef, TypeKind};
pub use lines::line;
pub use own_type::OwnType;
pub use placed::PlacedDecl;
pub use type_id::TypeId;
pub use units::unit_entries;

// Items of the crates below, for the crates above. A whole crate that is passed on slows every proof above it.
pub use name_scope::dsl_tree::{CompoundKind, HeirCondition};
pub use name_scope::{DeclId, Program};
pub use units_si::osc_base::{Fault, Place, Row, Text};
pub use units_si::{Exponents, Unit, literal};
