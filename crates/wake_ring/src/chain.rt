//! Numbers that are linked to one another: which comes after each, and which before it.
ghost use Rattle.std.specs.Prelude.{◌≡◌, ◌<◌, ◌≤◌, ◌^◌, length, IfOk};
ghost use Rattle.wake_ring.specs.Links.{next_at, prev_at, IsOwn, IsUnlinked, linked_before, unlinked};

use std::alloc::{AllocError, Global};
use std::marker::Model;

/// For each number below a bound, the number after it and the one before it.
#[derive(Drop)]
pub struct Chain {
    nexts: Vec<u32>,
    prevs: Vec<u32>,
}

impl Model for Chain {
    ghost use Rattle.wake_ring.specs.Links.{Links};

    ghost Value = { Links };

    ghost view = { λ c. record { nexts = c.nexts.items; prevs = c.prevs.items } };
}

/// The numbers below `count`, ascending.
fn numbers(alloc: Global, count: usize) -> Result<Vec<u32>, AllocError>
    requires { count ≤ 2 ^ 32 }
    ensures { IfOk result (λ v. IsOwn count v.items) }
{
    let mut numbers = Vec::with_capacity(alloc, count)?;
    for number in 0..count {
        numbers.push(number as u32)?;
    }
    Ok(numbers)
}

impl Chain {
    /// The numbers below `count`, each linked to itself.
    pub(crate) fn new(alloc: Global, count: usize) -> Result<Chain, AllocError>
        requires { count ≤ 2 ^ 32 }
        ensures { IfOk result (λ c. IsUnlinked count c) }
    {
        let nexts = numbers(alloc, count)?;
        let prevs = numbers(alloc, count)?;
        Ok(Chain { nexts, prevs })
    }

    /// The number after another.
    pub(crate) fn next(&self, number: u32) -> u32
        requires { number < length self.now.nexts }
        ensures { result ≡ next_at self.now number }
    {
        self.nexts[number as usize]
    }

    /// Links `i` before `end`.
    pub(crate) fn link_before(&mut self, end: u32, i: u32)
        requires long { length self.old.prevs ≡ length self.old.nexts }
        requires end { end < length self.old.nexts }
        requires last { prev_at self.old end < length self.old.nexts }
        requires i { i < length self.old.nexts }
        ensures { self.new ≡ linked_before end i self.old }
    {
        let last = self.prevs[end as usize];
        self.nexts[last as usize] = i;
        self.nexts[i as usize] = end;
        self.prevs[end as usize] = i;
        self.prevs[i as usize] = last;
    }

    /// Links the numbers beside `i` to each other, and it to itself.
    pub(crate) fn unlink(&mut self, i: u32)
        requires long { length self.old.prevs ≡ length self.old.nexts }
        requires before { prev_at self.old i < length self.old.nexts }
        requires after { next_at self.old i < length self.old.nexts }
        requires i { i < length self.old.nexts }
        ensures { self.new ≡ unlinked i self.old }
    {
        let before = self.prevs[i as usize];
        let after = self.nexts[i as usize];
        self.nexts[before as usize] = after;
        self.nexts[i as usize] = i;
        self.prevs[after as usize] = before;
        self.prevs[i as usize] = i;
    }
}
