ghost use Rattle.std.specs.Prelude.{◌≡◌, IfOk};

use crate::{Bounds, Rule};
use osc_base::Row;
use std::alloc::{AllocError, Global};

/// A box, and the rules that a point of it is to meet, both counted from 0.
#[derive(Drop)]
pub struct Flat {
    pub bounds: Bounds,
    pub rules: Row<Rule>,
}

impl Flat {
    /// An equal flat form.
    pub fn copy(&self, alloc: Global) -> Result<Flat, AllocError>
        ensures { IfOk result (λ f. f ≡ self.now) }
    {
        let bounds = self.bounds.copy(alloc)?;
        let mut rules = Row::new(alloc);
        for rule in self.rules.as_slice() {
            rules.push(rule.copy(alloc)?)?;
        }
        Ok(Flat { bounds, rules })
    }
}
