//! Conditions that are gathered, each once.

ghost use Rattle.std.specs.Prelude.{◌≡◌, ◌++◌, ℕ, [], None, Some, cond, map, nat_eq, OnOk};
ghost use Rattle.std.specs.List.{list_any};
ghost use Rattle.program_calls.specs.cond_inherit.Conditions as conds;
ghost use Rattle.program_calls.specs.cond_inherit.SubtypeConditions.{seen_condition};
ghost use Rattle.program_texts.specs.Asked as asked;
ghost use Rattle.program_texts.specs.Asked.{once_more, seen_kept, steps_done};

use indexmap::IndexMap;
use program_calls::{Condition, TypeId};
use std::alloc::{AllocError, Global};

/// Conditions that are gathered, each once, and the conditional subtypes that are done: each has the number of steps that
/// were left for it.
#[derive(Drop)]
pub(crate) struct AskedConditions {
    pub(crate) kept: Vec<Condition>,
    pub(crate) done: IndexMap<u32, u32>,
}

impl AskedConditions {
    /// No conditions.
    pub(crate) fn new(alloc: Global) -> AskedConditions
        ensures kept { seen_kept result ≡ [] }
        ensures done { (subtype : ℕ) → steps_done result subtype ≡ None }
    {
        AskedConditions {
            kept: Vec::new(alloc),
            done: IndexMap::new(alloc),
        }
    }

    /// Whether a conditional subtype was done with so many steps or more.
    pub(crate) fn is_done(&self, subtype: TypeId, steps: u32) -> bool
        ensures { result ≡ asked.is_done (steps_done self.now subtype) steps }
    {
        match self.done.get(&subtype.0) {
            Some(most) => steps <= *most,
            None => false,
        }
    }

    /// Puts a condition at the end, unless one of those before asks for the same.
    fn keep(&mut self, condition: Condition) -> Result<(), AllocError>
        ensures kept { OnOk result (seen_kept self.new ≡ seen_kept self.old ++ once_more (seen_kept self.old) (seen_condition condition)) }
        ensures done { OnOk result ((subtype : ℕ) → steps_done self.new subtype ≡ steps_done self.old subtype) }
    {
        if is_asked(self.kept.as_slice(), &condition) {
            return Ok(());
        }
        self.kept.push(condition)?;
        Ok(())
    }

    /// Says with how many steps a conditional subtype was done.
    fn mark(&mut self, subtype: TypeId, steps: u32) -> Result<(), AllocError>
        ensures kept { OnOk result (seen_kept self.new ≡ seen_kept self.old) }
        ensures done { OnOk result ((other : ℕ) → steps_done self.new other ≡ cond (nat_eq subtype other) (Some steps) (steps_done self.old other)) }
    {
        self.done.insert(subtype.0, steps)?;
        Ok(())
    }

    /// Puts the condition of a conditional subtype at the end, unless one of those before asks for the same. The subtype
    /// is done then with so many steps.
    pub(crate) fn finish(
        &mut self,
        subtype: TypeId,
        steps: u32,
        condition: Condition,
    ) -> Result<(), AllocError>
        ensures kept { OnOk result (seen_kept self.new ≡ seen_kept self.old ++ once_more (seen_kept self.old) (seen_condition condition)) }
        ensures done { OnOk result ((other : ℕ) → steps_done self.new other ≡ cond (nat_eq subtype other) (Some steps) (steps_done self.old other)) }
    {
        self.keep(condition)?;
        self.mark(subtype, steps)
    }
}

/// Whether a condition asks for a value that another one asks for too.
fn is_asked(conditions: &[Condition], condition: &Condition) -> bool
    ensures { result ≡ list_any (conds.same_condition (seen_condition condition.now)) (map seen_condition conditions.now) }
{
    for other in conditions {
        if condition.field.as_str() == other.field.as_str() && condition.value == other.value {
            return true;
        }
    }
    false
}
