//! The slots that a rule reads.
ghost use Rattle.std.specs.Prelude.{◌≡◌, [], ◌∷◌, ◌++◌, IfOk, OnOk};
ghost use Rattle.box_eval.specs.Reads.{slots_read, term_slots_read, IsSlotList};

use crate::{Rule, Term};
use osc_base::Row;
use std::alloc::{AllocError, Global};

/// The slots that a rule reads, counted from 0: each once, ascending. Its only error is out of memory.
pub fn slots_of(alloc: Global, rule: &Rule) -> Result<Row<u32>, AllocError>
    ensures { IfOk result (IsSlotList rule.now) }
{
    let mut slots = Vec::new(alloc);
    push_slots(rule, &mut slots)?;
    slots.sort_unstable();
    slots.dedup();
    Ok(Row::of(slots))
}

/// Puts the slots that a rule reads at the end of a list, each as often as it is read.
#[cycle(reading)]
#[tactic(auto, using(crate::proofs::Pushes::both_pushed))]
fn push_slots(rule: &Rule, slots: &mut Vec<u32>) -> Result<(), AllocError>
    ensures { OnOk result (slots.new.items ≡ slots.old.items ++ slots_read rule.now) }
{
    match rule {
        Rule::Always => Ok(()),
        Rule::Below(a, b) => {
            push_term_slots(a, slots)?;
            push_term_slots(b, slots)
        }
        Rule::AtMost(a, b) => {
            push_term_slots(a, slots)?;
            push_term_slots(b, slots)
        }
        Rule::Equal(a, b) => {
            push_term_slots(a, slots)?;
            push_term_slots(b, slots)
        }
        Rule::Differ(a, b) => {
            push_term_slots(a, slots)?;
            push_term_slots(b, slots)
        }
        Rule::Both(a, b) => {
            push_slots(a.get(), slots)?;
            push_slots(b.get(), slots)
        }
        Rule::Either(a, b) => {
            push_slots(a.get(), slots)?;
            push_slots(b.get(), slots)
        }
        Rule::Not(a) => push_slots(a.get(), slots),
    }
}

/// Puts the slots that a term reads at the end of a list, each as often as it is read.
#[cycle(reading)]
#[tactic(auto, using(crate::proofs::Pushes::both_pushed))]
fn push_term_slots(term: &Term, slots: &mut Vec<u32>) -> Result<(), AllocError>
    ensures { OnOk result (slots.new.items ≡ slots.old.items ++ term_slots_read term.now) }
{
    match term {
        Term::Whole(_) => Ok(()),
        Term::Slot(slot) => push_slot(*slot, slots),
        Term::Sum(a, b) => {
            push_term_slots(a.get(), slots)?;
            push_term_slots(b.get(), slots)
        }
        Term::Less(a, b) => {
            push_term_slots(a.get(), slots)?;
            push_term_slots(b.get(), slots)
        }
        Term::Times(a, b) => {
            push_term_slots(a.get(), slots)?;
            push_term_slots(b.get(), slots)
        }
        Term::Truth(rule) => push_slots(rule.get(), slots),
    }
}

fn push_slot(slot: u32, slots: &mut Vec<u32>) -> Result<(), AllocError>
    ensures { OnOk result (slots.new.items ≡ slots.old.items ++ slot ∷ []) }
{
    slots.push(slot)?;
    Ok(())
}
