//! Why the ends of slots are where they are: for each end, the rule that last narrowed it. A contract sees nothing of it.

ghost use Rattle.std.specs.Prelude.{◌≡◌};

use crate::adding::Adding;
use box_eval::{Cut, Flat, Side};
use search_laws::Pick;
use std::alloc::{AllocError, Global};
use std::marker::Model;

/// The number of narrowings of a slot since a decision at which a sum is first looked for. Then that number doubles.
const PATIENCE: u32 = 16;

/// The most rules that are added to the first.
const MOST_STEPS: u32 = 64;

/// How often a slot was narrowed since a decision.
#[derive(Debug, Clone, Copy)]
struct Narrowed {
    /// The number of the decision.
    decision: u32,
    count: u32,
    /// The count at which a sum is looked for next.
    next: u32,
}

impl Narrowed {
    /// Not at all.
    fn since(decision: u32) -> Narrowed {
        Narrowed {
            decision,
            count: 0,
            next: PATIENCE,
        }
    }
}

/// An end of a slot that was narrowed often, and the rule that did it last.
#[derive(Debug, Clone, Copy)]
struct Creeping {
    slot: u32,
    rule: u32,
}

/// The rule that last narrowed each end of each slot, and a sum of such rules. No contract says anything of them: a sum is tested.
#[derive(Drop)]
pub struct Reasons {
    /// For each slot, the rule that last narrowed its low end, if one did.
    low: Vec<Option<u32>>,
    /// The same for its high end.
    high: Vec<Option<u32>>,
    narrowed: Vec<Narrowed>,
    /// The number of decisions so far.
    decisions: u32,
    creeping: Option<Creeping>,
}

impl Model for Reasons {
    ghost use Rattle.std.specs.Prelude.{⊤};

    ghost Value = { ⊤ };

    ghost view = { λ r. tt };
}

impl Reasons {
    /// No reasons, for so many slots.
    pub(crate) fn new(alloc: Global, slots: usize) -> Result<Reasons, AllocError> {
        let low = vec![in alloc; None; slots]?;
        let high = vec![in alloc; None; slots]?;
        let narrowed = vec![in alloc; Narrowed::since(0); slots]?;
        Ok(Reasons {
            low,
            high,
            narrowed,
            decisions: 0,
            creeping: None,
        })
    }

    /// Keeps that a rule has narrowed an end, by a cut whose first part it closes.
    pub(crate) fn remember(&mut self, cut: Cut, rule: u32)
        ensures { self.new ≡ self.old }
    {
        match cut.side {
            Side::Low => put(&mut self.low, cut.slot, rule),
            Side::High => put(&mut self.high, cut.slot, rule),
        }
        self.count(cut.slot, rule);
    }

    /// Counts a narrowing of a slot.
    fn count(&mut self, slot: u32, rule: u32) {
        let decision = self.decisions;
        if let Some(place) = self.narrowed.get_mut(slot as usize) {
            if place.decision != decision {
                *place = Narrowed::since(decision);
            }
            place.count = place.count.saturating_add(1);
            if place.count == place.next {
                place.next = place.next.saturating_mul(2);
                self.creeping = Some(Creeping { slot, rule });
            }
        }
    }

    /// Counts a decision.
    pub(crate) fn decide(&mut self)
        ensures { self.new ≡ self.old }
    {
        self.decisions = self.decisions.wrapping_add(1);
    }

    /// Whether a slot creeps, so that a sum is to be looked for.
    pub(crate) fn is_wanted(&self) -> bool {
        self.creeping.is_some()
    }

    /// Adds up the reasons for the slot that was narrowed often. The sum is empty if that isn't found.
    pub(crate) fn guess(&mut self, flat: &Flat) -> Adding
        ensures { self.new ≡ self.old }
    {
        if let Some(Creeping { slot, rule }) = self.creeping.take() {
            let mut sum = Adding::new();
            if self.follow(flat, slot, rule, &mut sum).is_some() {
                return sum;
            }
        }
        Adding::new()
    }

    /// Takes a rule, and adds the reasons for the ends at which its sum is least, but for those of the slot where it begins.
    fn follow(&self, flat: &Flat, start: u32, rule: u32, sum: &mut Adding) -> Option<()> {
        sum.start(flat, rule)?;
        for _ in 0..MOST_STEPS {
            let Some((place, reason)) = self.next(start, sum) else {
                return Some(());
            };
            sum.cancel(flat, place, reason)?;
        }
        Some(())
    }

    /// The first slot of the sum for whose end there is a reason, by its place, and that reason.
    fn next(&self, start: u32, sum: &Adding) -> Option<(usize, u32)> {
        for (place, part) in sum.parts().iter().enumerate() {
            if part.slot != start && part.factor != 0 && !part.is_kept {
                let ends = if part.factor > 0 {
                    &self.low
                } else {
                    &self.high
                };
                if let Some(Some(reason)) = ends.get(part.slot as usize) {
                    return Some((place, *reason));
                }
            }
        }
        None
    }
}

/// Keeps a reason for a slot.
fn put(reasons: &mut Vec<Option<u32>>, slot: u32, rule: u32) {
    if let Some(reason) = reasons.get_mut(slot as usize) {
        *reason = Some(rule);
    }
}
