ghost use Rattle.std.specs.Prelude.{◌≡◌, ◌<◌, ◌≤◌, ◌^◌, ◌-◌, [], ◌∷◌, ◌++◌, length, take, false, IfOk};
ghost use Rattle.wake_ring.specs.Queue.{is_in};
ghost use Rattle.seeded_search.specs.Rooms.{with_mark};

use std::alloc::{AllocError, Global};
use std::marker::Model;

/// The numbers below a bound that are marked, in the order in which they were, with memory for all of them.
#[derive(Drop)]
pub struct Marks {
    listed: Vec<u32>,
    /// For each number, whether it is marked.
    flags: Vec<bool>,
}

impl Model for Marks {
    ghost use Rattle.std.specs.Prelude.{length};
    ghost use Rattle.seeded_search.specs.Rooms.{Marked};
    ghost use Rattle.std.specs.Vec.{vec_capacity};
    ghost use Rattle.seeded_search.specs.MarkList.{IsMarkList};

    ghost Value = { Marked };

    ghost view = { λ m. record { listed = m.listed.items; bound = length m.flags.items } };

    ghost invariant = { λ m. IsMarkList m.listed.items (vec_capacity m.listed) m.flags.items };
}

impl Marks {
    /// No marks, for the numbers below `bound`.
    pub(crate) fn new(alloc: Global, bound: usize) -> Result<Marks, AllocError>
        ensures { IfOk result (λ m. m ≡ record { listed = []; bound = bound }) }
    {
        let listed = Vec::with_capacity(alloc, bound)?;
        let flags = vec![in alloc; false; bound]?;
        Ok(Marks { listed, flags })
    }

    /// How many numbers are marked.
    pub(crate) fn len(&self) -> u32
        requires { self.now.bound < 2 ^ 32 }
        ensures { result ≡ length self.now.listed }
    {
        self.listed.len() as u32
    }

    /// Whether a number is marked.
    pub(crate) fn has(&self, number: u32) -> bool
        requires { number < self.now.bound }
        ensures { result ≡ is_in number self.now.listed }
    {
        self.flags[number as usize]
    }

    /// Marks a number that isn't marked.
    pub(crate) fn mark(&mut self, number: u32)
        requires below { number < self.old.bound }
        requires new { is_in number self.old.listed ≡ false }
        ensures { self.new ≡ record self.old { listed = self.old.listed ++ number ∷ [] } }
    {
        self.listed.push_reserved(number);
        self.flags[number as usize] = true;
    }

    /// Marks a number, unless it is marked.
    pub(crate) fn add(&mut self, number: u32)
        requires { number < self.old.bound }
        ensures { self.new ≡ with_mark number self.old }
    {
        if !self.has(number) {
            self.mark(number);
        }
    }

    /// Keeps the first `count` marks alone.
    pub(crate) fn back_to(&mut self, count: u32)
        requires { count ≤ length self.old.listed }
        ensures { self.new ≡ record self.old { listed = take count self.old.listed } }
    {
        while self.listed.len() > count as usize {
            self.drop_last();
        }
    }

    fn drop_last(&mut self)
        requires { 0 < length self.old.listed }
        ensures { self.new ≡ record self.old { listed = take (length self.old.listed - 1) self.old.listed } }
    {
        if let Some(number) = self.listed.pop() {
            self.flags[number as usize] = false;
        }
    }
}
