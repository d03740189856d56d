//! Ranks of types, found by one walk along all steps: no step leads to a higher rank, and one leads to an equal rank
//! only if other steps lead back.
//!
//! No contract says so. Whoever uses the ranks tests them.

use std::alloc::{AllocError, Global};
use type_heads::{Row, TypeId};

/// A type on the way, and how many of its steps were followed.
#[derive(Clone, Copy)]
struct Visit {
    of: usize,
    followed: usize,
}

/// A walk along steps. Types between which steps lead back and forth are a group, and get one rank.
#[derive(Drop)]
struct Walk {
    /// When each type was met, from 1 on, and 0 before.
    met: Vec<u32>,
    last_met: u32,
    /// The rank of each type, from 1 on, and 0 before.
    ranks: Vec<u32>,
    last_rank: u32,
    visits: Vec<Visit>,
    /// The types without a rank, in the order in which they were met.
    open: Vec<usize>,
    /// Those of them that are the first of a group, so far.
    firsts: Vec<usize>,
}

fn zeros(alloc: Global, count: usize) -> Result<Vec<u32>, AllocError> {
    let mut zeros = Vec::new(alloc);
    for _type in 0..count {
        zeros.push(0)?;
    }
    Ok(zeros)
}

fn number_at(numbers: &[u32], at: usize) -> u32 {
    match numbers.get(at) {
        Some(number) => *number,
        None => 0,
    }
}

fn put_at(numbers: &mut [u32], at: usize, number: u32) {
    if let Some(place) = numbers.get_mut(at) {
        *place = number;
    }
}

impl Walk {
    fn new(alloc: Global, count: usize) -> Result<Walk, AllocError> {
        let met = zeros(alloc, count)?;
        let ranks = zeros(alloc, count)?;
        Ok(Walk {
            met,
            last_met: 0,
            ranks,
            last_rank: 0,
            visits: Vec::new(alloc),
            open: Vec::new(alloc),
            firsts: Vec::new(alloc),
        })
    }

    /// Begins to visit a type that wasn't met before.
    fn enter(&mut self, of: usize) -> Result<(), AllocError> {
        self.last_met = self.last_met.saturating_add(1);
        put_at(self.met.as_mut_slice(), of, self.last_met);
        self.open.push(of)?;
        self.firsts.push(of)?;
        self.visits.push(Visit { of, followed: 0 })?;
        Ok(())
    }

    /// A step leads to a type that was met and has no rank: what was met since then is of its group.
    fn join(&mut self, of: usize) {
        let since = number_at(self.met.as_slice(), of);
        for _first in 0..self.firsts.len() {
            let Some(first) = self.firsts.pop() else {
                return;
            };
            if number_at(self.met.as_slice(), first) <= since {
                let _ = self.firsts.push(first);
                return;
            }
        }
    }

    /// Follows a step to a type.
    fn follow(&mut self, of: usize) -> Result<(), AllocError> {
        if number_at(self.met.as_slice(), of) == 0 {
            return self.enter(of);
        }
        if number_at(self.ranks.as_slice(), of) == 0 {
            self.join(of);
        }
        Ok(())
    }

    /// Gives the next rank to a type and to all that are open since it was met.
    fn close(&mut self, of: usize) {
        self.last_rank = self.last_rank.saturating_add(1);
        for _open in 0..self.open.len() {
            let Some(member) = self.open.pop() else {
                return;
            };
            put_at(self.ranks.as_mut_slice(), member, self.last_rank);
            if member == of {
                return;
            }
        }
    }

    /// Ends the visit of a type. If it is the first of its group, the group has a rank then.
    fn leave(&mut self, of: usize) {
        let Some(first) = self.firsts.pop() else {
            return;
        };
        if first == of {
            self.close(of);
        } else {
            let _ = self.firsts.push(first);
        }
    }

    /// Goes on by one step, or by the end of a visit. The result says whether there was a visit.
    fn go_on(&mut self, next: &[Row<TypeId>]) -> Result<bool, AllocError> {
        let Some(visit) = self.visits.pop() else {
            return Ok(false);
        };
        match step_of(next, visit) {
            Some(to) => {
                self.visits.push(Visit {
                    of: visit.of,
                    followed: visit.followed.saturating_add(1),
                })?;
                self.follow(to)?;
            }
            None => self.leave(visit.of),
        }
        Ok(true)
    }

    /// Visits a type and all that is reached from it, unless it was met before.
    fn visit(&mut self, next: &[Row<TypeId>], of: usize, most: u64) -> Result<(), AllocError> {
        if number_at(self.met.as_slice(), of) != 0 {
            return Ok(());
        }
        self.enter(of)?;
        for _turn in 0..most {
            if !self.go_on(next)? {
                return Ok(());
            }
        }
        Ok(())
    }
}

/// Where the next step of a visit leads.
fn step_of(next: &[Row<TypeId>], visit: Visit) -> Option<usize> {
    let row = next.get(visit.of)?;
    let to = row.as_slice().get(visit.followed)?;
    Some(to.0 as usize)
}

/// How often a walk can go on: once for each type and for each step.
fn most_turns(next: &[Row<TypeId>]) -> u64 {
    let mut most: u64 = 1;
    for row in next {
        most = most.saturating_add(row.as_slice().len() as u64);
        most = most.saturating_add(1);
    }
    most
}

/// A rank for each type, given to which types its steps lead.
pub fn ranks_of(alloc: Global, next: &[Row<TypeId>]) -> Result<Vec<u32>, AllocError> {
    let most = most_turns(next);
    let mut walk = Walk::new(alloc, next.len())?;
    for of in 0..next.len() {
        walk.visit(next, of, most)?;
    }
    Ok(walk.ranks)
}
