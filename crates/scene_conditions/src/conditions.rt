//! Conditions, each once.

ghost use Rattle.std.specs.Prelude.{◌≡◌, [], map, IfOk};
ghost use Rattle.scene_conditions.specs.SeenConditions.{seen_condition, seen_conditions};
ghost use Rattle.scene_conditions.specs.Gathered.{with_one, with_all};

use crate::condition::Condition;
use composition::Guard;
use indexmap::IndexSet;
use std::alloc::{AllocError, Global};

/// Conditions, each once, in the order in which they were met first.
#[derive(Drop)]
pub struct Conditions<'a> {
    keys: IndexSet<Condition<'a>>,
}

impl<'a> Conditions<'a> {
    /// No conditions.
    pub(crate) fn new(alloc: Global) -> Conditions<'a>
        ensures { seen_conditions result ≡ [] }
    {
        Conditions {
            keys: IndexSet::new(alloc),
        }
    }

    /// The conditions in order.
    pub fn as_slice(&self) -> &[Condition<'a>]
        ensures { map seen_condition result.now ≡ seen_conditions self.now }
    {
        self.keys.as_slice()
    }

    /// With one condition more.
    fn with_one(self, guard: &'a Guard) -> Result<Conditions<'a>, AllocError>
        ensures { IfOk result (λ c. seen_conditions c ≡ with_one (seen_conditions self.entry) guard.now) }
    {
        let mut met = self;
        met.keys.insert(Condition::of(guard))?;
        Ok(met)
    }

    /// With these conditions more.
    pub(crate) fn with(self, guards: &'a [Guard]) -> Result<Conditions<'a>, AllocError>
        ensures { IfOk result (λ c. seen_conditions c ≡ with_all (seen_conditions self.entry) guards.now) }
    {
        let mut met = self;
        'guards: for guard in guards {
            met = met.with_one(guard)?;
        }
        Ok(met)
    }
}
