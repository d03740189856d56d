//! Conditions, by reference.

ghost use Rattle.std.specs.Prelude.{◌≡◌};

use composition::Guard;
use osc_base::Path;

/// A condition under which a part of a scene is there.
#[derive(Clone, Copy, PartialEq, Eq, Hash)]
pub enum Condition<'a> {
    /// The `one_of` at the path chose this member, counted from 0.
    Choice { phase: &'a Path, member: u32 },
    /// The field at the path holds this number.
    Value { path: &'a Path, value: i64 },
}

impl<'a> Condition<'a> {
    ghost use Rattle.scene_conditions.specs.SeenConditions.{seen_condition};

    /// A condition of a scene, by reference.
    pub(crate) fn of(guard: &'a Guard) -> Condition<'a>
        ensures { seen_condition result ≡ guard.now }
    {
        match guard {
            Guard::Choice { phase, member } => Condition::Choice {
                phase,
                member: *member,
            },
            Guard::Value { path, value } => Condition::Value {
                path,
                value: *value,
            },
        }
    }
}
