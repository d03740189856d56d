//! Where the members stand that come down through each conditional subtype.
//!
//! No contract says so. Whoever uses this tests it.

use crate::ListedMember;
use std::alloc::{AllocError, Global};
use type_heads::TypeId;

/// From which place of a row to which the members come down through a conditional subtype. The second isn't one of them.
#[derive(Clone, Copy)]
pub struct Hole {
    pub row: usize,
    pub from: usize,
    pub to: usize,
}

/// For each conditional subtype, where the members that come down through it were put.
#[derive(Drop)]
pub struct Holes {
    holes: Vec<Option<Hole>>,
}

impl Holes {
    /// The holes of so many types, none of which is known.
    pub fn new(alloc: Global, count: u32) -> Result<Holes, AllocError> {
        let mut holes = Vec::new(alloc);
        for _type in 0..count {
            holes.push(None)?;
        }
        Ok(Holes { holes })
    }

    /// The hole of a type, if one was put down.
    pub fn of(&self, of: TypeId) -> Option<Hole> {
        match self.holes.get(of.0 as usize) {
            Some(hole) => *hole,
            None => None,
        }
    }

    fn put_member(&mut self, of: TypeId, row: usize, place: usize) {
        let Some(known) = self.holes.get_mut(of.0 as usize) else {
            return;
        };
        let from = match known {
            Some(hole) if hole.row == row => hole.from,
            _ => place,
        };
        *known = Some(Hole {
            row,
            from,
            to: place.saturating_add(1),
        });
    }

    /// Puts the members of the row of that number down, each for all conditional subtypes that it is under.
    pub fn put(&mut self, row: usize, members: &[ListedMember<'_>]) {
        let mut place: usize = 0;
        for member in members {
            for of in member.under.as_slice() {
                self.put_member(*of, row, place);
            }
            place = place.saturating_add(1);
        }
    }
}
