ghost use Rattle.std.specs.Prelude.{◌≡◌, ℕ, pos, ◌+◌, ◌-◌, ◌^◌, ◌<◌, ◌≤◌, ◌≤ℤ◌, [], ◌∷◌, length, slice_set, IfOk};
ghost use Rattle.box_eval.specs.Box.{low_at, high_at, up_to, from, IsBox};
ghost use Rattle.bound_trail.specs.History.{mark_of, present, with_box, back_to};

use box_eval::{Bounds, Ends, Pair};
use std::alloc::{AllocError, Global};
use std::marker::Model;

/// A slot whose ends were changed, and the ends that it had before.
#[derive(Clone, Copy)]
struct Change {
    slot: u32,
    was: Pair,
}

/// The ends of each slot, which can be narrowed one end at a time, and brought back.
///
/// Contracts see it as the list of its boxes, from the first to the present one.
#[derive(Drop)]
pub struct Trail {
    pairs: Vec<Pair>,
    /// Every place that there will ever be; the first `mark` are in use.
    changes: Vec<Change>,
    mark: u32,
}

impl Model for Trail {
    ghost use Rattle.std.specs.Prelude.{length};
    ghost use Rattle.bound_trail.specs.History.{History};

    ghost Value = { History };

    ghost use Rattle.bound_trail.specs.Trail.{boxes_of, IsTrail};

    ghost view = { λ t. record { boxes = boxes_of t.mark t.changes.items t.pairs.items; room = length t.changes.items } };

    ghost invariant = { λ t. IsTrail t.mark t.changes.items t.pairs.items };
}

impl Trail {
    /// A trail at the given box, on which no set stands, with places for `room` sets.
    pub fn new(alloc: Global, bounds: &Bounds, room: u32) -> Result<Trail, AllocError>
        requires few { length bounds.now.pairs < 2 ^ 32 }
        requires ordered { IsBox bounds.now.pairs }
        ensures { IfOk result (λ t. t ≡ record { boxes = bounds.now.pairs ∷ []; room = room }) }
    {
        let nothing = Change {
            slot: 0,
            was: Pair { low: 0, high: 0 },
        };
        let pairs = Vec::from_slice(alloc, bounds.pairs.as_slice())?;
        let changes = vec![in alloc; nothing; room as usize]?;
        Ok(Trail {
            pairs,
            changes,
            mark: 0,
        })
    }

    /// The number of sets that stand.
    ///
    /// The present ends are always a box: each low end is at most its high end.
    pub fn mark(&self) -> u32
        ensures mark { result ≡ mark_of self.now }
        ensures ordered { IsBox (present self.now) }
        ensures few { length (present self.now) < 2 ^ 32 }
    {
        self.mark
    }

    /// The number of sets that can be made before one is undone.
    pub fn room(&self) -> u32
        ensures { result + mark_of self.now ≡ self.now.room }
    {
        self.changes.len() as u32 - self.mark
    }

    /// Raises the low end of a slot to a value between its ends.
    pub fn set_low(&mut self, slot: u32, value: i64)
        requires room { mark_of self.old < self.old.room }
        requires slot { slot < length (present self.old) }
        requires above { low_at (present self.old) slot ≤ℤ value }
        requires below { value ≤ℤ high_at (present self.old) slot }
        ensures { self.new ≡ with_box self.old (from (present self.old) slot value) }
    {
        let high = self.high(slot);
        self.change(slot, Pair { low: value, high });
    }

    /// Lowers the high end of a slot to a value between its ends.
    pub fn set_high(&mut self, slot: u32, value: i64)
        requires room { mark_of self.old < self.old.room }
        requires slot { slot < length (present self.old) }
        requires above { low_at (present self.old) slot ≤ℤ value }
        requires below { value ≤ℤ high_at (present self.old) slot }
        ensures { self.new ≡ with_box self.old (up_to (present self.old) slot value) }
    {
        let low = self.low(slot);
        self.change(slot, Pair { low, high: value });
    }

    fn change(&mut self, slot: u32, pair: Pair)
        requires room { mark_of self.old < self.old.room }
        requires slot { slot < length (present self.old) }
        requires ordered { pair.low ≤ℤ pair.high }
        ensures { self.new ≡ with_box self.old (slice_set (present self.old) slot pair) }
    {
        let was = self.pairs[slot as usize];
        self.changes[self.mark as usize] = Change { slot, was };
        self.pairs[slot as usize] = pair;
        self.mark += 1;
    }

    /// Brings back the ends as they were when `mark` sets stood.
    pub fn undo_to(&mut self, mark: u32)
        requires { mark ≤ mark_of self.old }
        ensures { self.new ≡ back_to self.old mark }
    {
        while self.mark() > mark {
            self.undo();
        }
    }

    fn undo(&mut self)
        requires { 0 < mark_of self.old }
        ensures { self.new ≡ back_to self.old (mark_of self.old - 1) }
    {
        self.mark -= 1;
        let change = self.changes[self.mark as usize];
        self.pairs[change.slot as usize] = change.was;
    }
}

impl Ends for Trail {
    ghost ends = { present };

    fn len(&self) -> u32 {
        self.pairs.len() as u32
    }

    fn low(&self, slot: u32) -> i64 {
        self.pairs[slot as usize].low
    }

    fn high(&self, slot: u32) -> i64 {
        self.pairs[slot as usize].high
    }
}
