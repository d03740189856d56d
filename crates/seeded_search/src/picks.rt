ghost use Rattle.std.specs.Prelude.{◌≡◌, ◌+◌, ◌<◌, ◌≤◌, [], ◌∷◌, ◌++◌, length, true, IfOk};
ghost use Rattle.std.specs.Bool.{OnTrue, OnFalse};

use osc_base::Row;
use search_laws::Pick;
use std::alloc::{AllocError, Global};
use std::marker::Model;

/// The rules of a record's sums so far, with memory for all that there will ever be.
#[derive(Drop)]
pub struct Picks {
    items: Vec<Pick>,
    room: usize,
}

impl Model for Picks {
    ghost use Rattle.std.specs.Prelude.{◌≤◌};
    ghost use Rattle.std.specs.Vec.{vec_capacity};
    ghost use Rattle.seeded_search.specs.Rooms.{Picked};

    ghost Value = { Picked };

    ghost view = { λ p. record { items = p.items.items; room = p.room } };

    ghost invariant = { λ p. p.room ≤ vec_capacity p.items };
}

impl Picks {
    /// No rules, and room for so many.
    pub(crate) fn new(alloc: Global, room: usize) -> Result<Picks, AllocError>
        ensures { IfOk result (λ p. p ≡ record { items = []; room = room }) }
    {
        let items = Vec::with_capacity(alloc, room)?;
        Ok(Picks { items, room })
    }

    /// Puts the rules of a sum at the end, if there is room. Returns whether there is.
    pub(crate) fn add(&mut self, picks: &[Pick]) -> bool
        ensures added { OnTrue result (self.new ≡ record self.old { items = self.old.items ++ picks.now }) }
        ensures few { OnTrue result (length self.old.items + length picks.now ≤ self.old.room) }
        ensures same { OnFalse result (self.new ≡ self.old) }
    {
        if !self.has_room(picks.len()) {
            return false;
        }
        for pick in picks {
            self.push(*pick);
        }
        true
    }

    fn has_room(&self, count: usize) -> bool
        ensures { result ≡ true → length self.now.items + count ≤ self.now.room }
    {
        count <= self.room && self.items.len() <= self.room - count
    }

    fn push(&mut self, pick: Pick)
        requires { length self.old.items < self.old.room }
        ensures { self.new ≡ record self.old { items = self.old.items ++ pick ∷ [] } }
    {
        self.items.push_reserved(pick);
    }

    /// The rules.
    pub(crate) fn finish(self) -> Row<Pick>
        ensures { result ≡ self.items }
    {
        Row::of(self.items)
    }
}
