//! Conditions of conditional subtypes.

ghost use Rattle.std.specs.Prelude.{◌≡◌};
ghost use Rattle.std.specs.Ordering.{int_eq};

use type_model::{Text, TypeId};

/// The condition of a conditional subtype: a field of its base, the number that this must have, and the subtype, whose
/// members are there then. A truth value is 1 or 0, and a member of an enum its number.
#[derive(Drop)]
pub struct Condition {
    pub field: Text,
    pub value: i64,
    pub subtype: TypeId,
}

/// Whether a number is the one that the field must have.
pub fn holds(condition: &Condition, value: i64) -> bool
    ensures { result ≡ int_eq value condition.now.value }
{
    value == condition.value
}
