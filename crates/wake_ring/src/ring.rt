//! The numbers that wait, each with a flag, and the order in which they are taken: those below a border first in, first
//! out, and where none of them waits, the others in sweeps. The order is a guess to the contracts, which speak of the
//! flags: each number that is taken is looked up there.
ghost use Rattle.std.specs.Prelude.{◌≡◌, ℕ, ◌<◌, ◌^◌, [], ◌∷◌, not, length, true, IfOk, IfSome, MatchOption};
ghost use Rattle.std.specs.Bool.{OnFalse};
ghost use Rattle.wake_ring.specs.Queue.{is_in, without, queue};
ghost use Rattle.wake_ring.specs.Flags.{flag_at, flagged};

use crate::queue::NumberQueue;
use crate::sweep::{Sweep, least_from};
use std::alloc::{AllocError, Global};
use std::marker::Model;

/// Distinct numbers below a bound that wait. No call but those that make it allocates.
#[derive(Drop)]
pub struct WakeRing {
    flags: Vec<bool>,
    count: u32,
    queue: NumberQueue,
    sweep: Sweep,
}

impl Model for WakeRing {
    ghost use Rattle.std.specs.Prelude.{length};
    ghost use Rattle.wake_ring.specs.Queue.{Queue};
    ghost use Rattle.wake_ring.specs.Flags.{flagged, IsFlagged};

    ghost Value = { Queue };

    ghost view = { λ r. record { bound = length r.flags.items; items = flagged r.flags.items } };

    ghost invariant = { λ r. IsFlagged r.flags.items r.count r.queue };
}

/// A number that is flagged: the one that was guessed, if it is.
#[tactic(auto, using(crate::proofs::Flags::none_flagged))]
fn flagged_one(flags: &[bool], guess: usize) -> Option<u32>
    requires { length flags.now < 2 ^ 32 }
    ensures { MatchOption result (flagged flags.now ≡ []) (λ k. (k < length flags.now) × (flag_at flags.now k ≡ true)) }
{
    if guess < flags.len() && flags[guess] {
        return Some(guess as u32);
    }
    let least = least_from(flags, 0)?;
    Some(least as u32)
}

/// The number whose turn is next.
fn guessed(flags: &[bool], queue: &mut NumberQueue, sweep: &mut Sweep) -> usize
    ensures { queue.new.bound ≡ queue.old.bound }
{
    match queue.pop_front() {
        Some(number) => number as usize,
        None => sweep.next(flags),
    }
}

/// Puts a number last in the queue if it is below the border.
fn queue_below(queue: &mut NumberQueue, number: u32, border: usize)
    requires { number < queue.old.bound }
    ensures { queue.new.bound ≡ queue.old.bound }
{
    if (number as usize) < border {
        queue.push_back(number);
    }
}

impl WakeRing {
    /// An empty ring for the numbers below `n`, all of which are taken first in, first out. Out of memory is its only
    /// error.
    pub fn new(alloc: Global, n: u32) -> Result<WakeRing, AllocError>
        ensures { IfOk result (λ r. r ≡ queue n []) }
    {
        WakeRing::swept(alloc, n, n)
    }

    /// An empty ring for the numbers below `n`. Those from `first` on are taken in sweeps, where no other waits. Out of
    /// memory is its only error.
    #[tactic(auto, using(crate::proofs::Flags::fresh))]
    pub fn swept(alloc: Global, n: u32, first: u32) -> Result<WakeRing, AllocError>
        ensures { IfOk result (λ r. r ≡ queue n []) }
    {
        let flags = vec![in alloc; false; n as usize]?;
        let queue = NumberQueue::new(alloc, n)?;
        Ok(WakeRing {
            flags,
            count: 0,
            queue,
            sweep: Sweep::new(first as usize),
        })
    }

    /// Lets `i`, which is below the bound, wait. If it waits already, this changes nothing and returns false.
    #[tactic(auto, using(crate::proofs::Flags::in_flagged, crate::proofs::Flags::in_more, crate::proofs::Flags::one_more, crate::proofs::Flags::few_flagged))]
    pub fn add(&mut self, i: u32) -> bool
        requires { i < self.old.bound }
        ensures there { result ≡ not (is_in i self.old.items) }
        ensures bound { self.new.bound ≡ self.old.bound }
        ensures added { (k : ℕ) → is_in k self.new.items ≡ is_in k (i ∷ self.old.items) }
        ensures same { OnFalse result (self.new ≡ self.old) }
    {
        if self.flags[i as usize] {
            return false;
        }
        queue_below(&mut self.queue, i, self.sweep.first);
        self.flags[i as usize] = true;
        self.count += 1;
        true
    }

    /// Takes a number that waits. `None` exactly when none does, and then the sweep begins anew.
    #[tactic(auto, using(crate::proofs::Flags::in_flagged, crate::proofs::Flags::none_counted, crate::proofs::Flags::without_flag, crate::proofs::Flags::one_less))]
    pub fn take(&mut self) -> Option<u32>
        ensures there { MatchOption result (self.old.items ≡ []) (λ i. is_in i self.old.items ≡ true) }
        ensures below { IfSome result (λ i. i < self.old.bound) }
        ensures taken { MatchOption result (self.new ≡ self.old)
            (λ i. self.new ≡ queue self.old.bound (without i self.old.items)) }
        ensures fewer { IfSome result (λ i. length self.new.items < length self.old.items) }
    {
        if self.count == 0 {
            self.sweep = Sweep::new(self.sweep.first);
            return None;
        }
        let guess = guessed(&self.flags, &mut self.queue, &mut self.sweep);
        let i = flagged_one(&self.flags, guess)?;
        self.flags[i as usize] = false;
        self.count -= 1;
        Some(i)
    }

    /// Takes `i`, which is below the bound. If it doesn't wait, this changes nothing and returns false.
    #[tactic(auto, using(crate::proofs::Flags::in_flagged, crate::proofs::Flags::without_flag, crate::proofs::Flags::one_less))]
    pub fn remove(&mut self, i: u32) -> bool
        requires { i < self.old.bound }
        ensures there { result ≡ is_in i self.old.items }
        ensures removed { self.new ≡ queue self.old.bound (without i self.old.items) }
        ensures same { OnFalse result (self.new ≡ self.old) }
    {
        if !self.flags[i as usize] {
            return false;
        }
        self.queue.remove(i);
        self.flags[i as usize] = false;
        self.count -= 1;
        true
    }
}
