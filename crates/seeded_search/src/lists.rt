//! Which rule reads which slots, both ways.
ghost use Rattle.std.specs.Prelude.{◌≡◌, ℕ, ◌<◌, ◌≤◌, ◌^◌, [], length, true, slice_get, slice_index_or, Some, IfOk, OnOk, List};
ghost use Rattle.std.specs.List.Sorted.{IsStrictlyIncreasing};
ghost use Rattle.wake_ring.specs.Queue.{is_in};
ghost use Rattle.wake_ring.specs.Order.{AllBelow};
ghost use Rattle.box_eval.specs.declared.rule.Rule.{Rule};
ghost use Rattle.box_eval.specs.Rules.{IsFlat};
ghost use Rattle.seeded_search.specs.SlotLists.{AreSlotLists, AreRuleLists, IsEntered};

use box_eval::{Flat, Rule, slots_of};
use osc_base::Row;
use std::alloc::{AllocError, Global};

/// Which rule reads which slots, both ways. Rules and slots count from 0, and each list is ascending.
#[derive(Drop)]
pub struct Lists {
    /// For each rule, the slots that it reads.
    pub slots: Vec<Row<u32>>,
    /// For each slot, the rules that read it.
    pub rules: Vec<Row<u32>>,
}

/// For each rule, the slots that it reads, ascending.
pub(crate) fn slots_by_rule(alloc: Global, rules: &[Rule]) -> Result<Vec<Row<u32>>, AllocError>
    ensures { IfOk result (λ v. AreSlotLists rules.now v.items) }
{
    let mut lists = Vec::new(alloc);
    for rule in rules {
        lists.push(slots_of(alloc, rule)?)?;
    }
    Ok(lists)
}

/// So many empty lists.
fn empty_lists(alloc: Global, count: usize) -> Result<Vec<Row<u32>>, AllocError>
    ensures len { IfOk result (λ v. length v.items ≡ count) }
    ensures empty { IfOk result (λ v. (k : ℕ) → slice_index_or v.items k [] ≡ []) }
{
    let mut lists = Vec::with_capacity(alloc, count)?;
    for _ in 0..count {
        lists.push(Row::new(alloc))?;
    }
    Ok(lists)
}

/// Puts a rule at the end of the list of each slot that it reads.
fn enter(lists: &mut Vec<Row<u32>>, number: u32, slots: &[u32]) -> Result<(), AllocError>
    requires below { AllBelow (length lists.old.items) slots.now }
    requires ascending { IsStrictlyIncreasing slots.now }
    ensures { OnOk result (IsEntered number slots.now lists.old.items lists.new.items) }
{
    for slot in slots {
        lists[*slot as usize].push(number)?;
    }
    Ok(())
}

/// For each slot, the rules that read it, ascending, from the slots that each rule reads.
pub(crate) fn rules_by_slot(
    alloc: Global,
    flat: &Flat,
    slots: &Vec<Row<u32>>,
) -> Result<Vec<Row<u32>>, AllocError>
    requires flat { IsFlat flat.now }
    requires slots { AreSlotLists flat.now.rules slots.now.items }
    ensures { IfOk result (λ v. AreRuleLists flat.now.rules (length flat.now.rules) (length flat.now.bounds.pairs) v.items) }
{
    let mut lists = empty_lists(alloc, flat.bounds.pairs.as_slice().len())?;
    for (number, read) in slots.iter().enumerate() {
        enter(&mut lists, number as u32, read.as_slice())?;
    }
    Ok(lists)
}
