//! The queue over the links: the number past the last is the ring's end, and stands before the first number and after
//! the last. A number that is not in the queue is linked to itself.
ghost use Rattle.std.specs.Prelude.{◌≡◌, ◌≢◌, ℕ, ◌<◌, ◌≤◌, [], ◌∷◌, ◌++◌, not, length, All, AllPairs, IfOk, IfSome};
ghost use Rattle.std.specs.Bool.{OnTrue, OnFalse};
ghost use Rattle.wake_ring.specs.Queue.{is_in, without, first, rest};

use crate::chain::Chain;
use std::alloc::{AllocError, Global};
use std::marker::Model;

/// A queue of distinct numbers below a bound. Each call but `new` takes constant time, and only `new` allocates.
#[derive(Drop)]
pub struct NumberQueue {
    chain: Chain,
    end: u32,
    len: u32,
}

impl Model for NumberQueue {
    ghost use Rattle.wake_ring.specs.Queue.{Queue};

    ghost Value = { Queue };

    ghost use Rattle.wake_ring.specs.Order.{items_of, IsRing};

    ghost view = { λ r. record { bound = r.end; items = items_of r.end r.len r.chain } };

    ghost invariant = { λ r. IsRing r.end r.chain (items_of r.end r.len r.chain) };
}

impl NumberQueue {
    /// An empty queue for the numbers below `n`. Out of memory is its only error.
    pub fn new(alloc: Global, n: u32) -> Result<NumberQueue, AllocError>
        ensures { IfOk result (λ r. r ≡ record { bound = n; items = [] }) }
    {
        let chain = Chain::new(alloc, n as usize + 1)?;
        Ok(NumberQueue {
            chain,
            end: n,
            len: 0,
        })
    }

    /// How many numbers are in the queue. They are distinct and below the bound, so they are at most that many.
    pub fn len(&self) -> u32
        ensures len { result ≡ length self.now.items }
        ensures fits { result ≤ self.now.bound }
        ensures distinct { AllPairs (λ x y. x ≢ y) self.now.items }
        ensures below { All (λ x. x < self.now.bound) self.now.items }
    {
        self.len
    }

    /// Puts `i`, which is below the bound, last. If `i` is in the queue already, it changes nothing and returns false.
    pub fn push_back(&mut self, i: u32) -> bool
        requires { i < self.old.bound }
        ensures there { result ≡ not (is_in i self.old.items) }
        ensures added { OnTrue result (self.new ≡ record { bound = self.old.bound; items = self.old.items ++ i ∷ [] }) }
        ensures same { OnFalse result (self.new ≡ self.old) }
    {
        if self.chain.next(i) != i {
            return false;
        }
        self.chain.link_before(self.end, i);
        self.len += 1;
        true
    }

    /// Takes the first number. `None` exactly when the queue is empty.
    pub fn pop_front(&mut self) -> Option<u32>
        ensures first { result ≡ first self.old.items }
        ensures below { IfSome result (λ i. i < self.old.bound) }
        ensures rest { self.new ≡ record { bound = self.old.bound; items = rest self.old.items } }
    {
        let i = self.chain.next(self.end);
        if i == self.end {
            return None;
        }
        self.chain.unlink(i);
        self.len -= 1;
        Some(i)
    }

    /// Takes `i`, which is below the bound, out of the queue. If it isn't there, this changes nothing and returns false.
    pub fn remove(&mut self, i: u32) -> bool
        requires { i < self.old.bound }
        ensures there { result ≡ is_in i self.old.items }
        ensures removed { self.new ≡ record { bound = self.old.bound; items = without i self.old.items } }
        ensures same { OnFalse result (self.new ≡ self.old) }
    {
        if self.chain.next(i) == i {
            return false;
        }
        self.chain.unlink(i);
        self.len -= 1;
        true
    }
}
