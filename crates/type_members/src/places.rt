//! Where the members of each type stand in rows.

ghost use Rattle.std.specs.Prelude.{List, IfSome};
ghost use Rattle.type_heads.specs.Table.{TypeHead};
ghost use Rattle.type_heads.specs.Types.{TypeBody};
ghost use Rattle.type_members.specs.RowEnds.{AreRows, StandsAt};

use crate::rows::{MemberRow, RowEnd};
use std::alloc::{AllocError, Global};
use type_heads::TypeId;

/// The members of a row from one place to another. `inside` is how many of their outermost conditions are met already. Places are
/// counted from 0, and the second isn't part of it.
#[derive(Clone, Copy)]
pub struct Part {
    pub row: usize,
    pub from: usize,
    pub to: usize,
    pub inside: usize,
}

/// Where the members of a type stand: in the parts in front of a row, and then so many of the first of the row itself.
#[derive(Clone, Copy)]
pub struct Span {
    pub row: usize,
    pub len: usize,
}

/// Where the members of a type stand, and how many types there are from it on, each the base of the one before.
#[derive(Clone, Copy)]
pub struct Standing {
    pub span: Span,
    pub depth: usize,
}

/// Where each type was put, as a row and one of its ends. No contract says so: whoever asks for a place tests it.
#[derive(Drop)]
pub struct Places {
    ends: Vec<Option<EndAt>>,
}

#[derive(Clone, Copy)]
struct EndAt {
    row: usize,
    end: usize,
}

impl Places {
    /// The places of so many types, none of which is known.
    pub fn new(alloc: Global, count: u32) -> Result<Places, AllocError> {
        let mut ends = Vec::new(alloc);
        for _type in 0..count {
            ends.push(None)?;
        }
        Ok(Places { ends })
    }

    fn end_of(&self, of: TypeId) -> Option<EndAt> {
        match self.ends.get(of.0 as usize) {
            Some(end) => *end,
            None => None,
        }
    }

    fn put_end(&mut self, of: TypeId, at: EndAt) {
        if let Some(place) = self.ends.get_mut(of.0 as usize) {
            *place = Some(at);
        }
    }

    /// Puts the types of a row of that number down.
    pub fn put(&mut self, row: usize, ends: &[RowEnd]) {
        let mut end: usize = 0;
        for it in ends {
            self.put_end(it.of, EndAt { row, end });
            end = end.saturating_add(1);
        }
    }
}

/// The place of a type in rows, if it is the one that was put down.
pub fn standing_in(rows: &[MemberRow<'_>], places: &Places, of: TypeId) -> Option<Standing>
    ensures { (heads : List TypeHead) (bodies : List TypeBody) → AreRows heads bodies rows.now → IfSome result (StandsAt heads bodies rows.now of) }
{
    let at = places.end_of(of)?;
    let row = rows.get(at.row)?;
    let end = row.ends.get(at.end)?;
    if end.of != of {
        return None;
    }
    Some(Standing {
        span: Span {
            row: at.row,
            len: end.len,
        },
        depth: end.depth,
    })
}
