ghost use Rattle.std.specs.Prelude.{◌≡◌, ◌<◌, [], ◌∷◌, length, IfOk, IfSome, MatchOption};

use search_laws::Decision;
use std::alloc::{AllocError, Global};
use std::marker::Model;

/// The decisions whose second part is untried, with memory for all that there will ever be. A contract sees the newest first.
#[derive(Drop)]
pub struct Decisions {
    items: Vec<Decision>,
    room: usize,
}

impl Model for Decisions {
    ghost use Rattle.std.specs.Prelude.{◌≤◌};
    ghost use Rattle.std.specs.Prelude.{reverse};
    ghost use Rattle.std.specs.Vec.{vec_capacity};
    ghost use Rattle.seeded_search.specs.Rooms.{Pile};

    ghost Value = { Pile };

    ghost view = { λ d. record { items = reverse d.items.items; room = d.room } };

    ghost invariant = { λ d. d.room ≤ vec_capacity d.items };
}

impl Decisions {
    /// No decisions, and room for so many.
    pub(crate) fn new(alloc: Global, room: usize) -> Result<Decisions, AllocError>
        ensures { IfOk result (λ d. d ≡ record { items = []; room = room }) }
    {
        let items = Vec::with_capacity(alloc, room)?;
        Ok(Decisions { items, room })
    }

    /// How many there are.
    pub(crate) fn len(&self) -> usize
        ensures { result ≡ length self.now.items }
    {
        self.items.len()
    }

    /// Puts a decision on top.
    pub(crate) fn push(&mut self, decision: Decision)
        requires { length self.old.items < self.old.room }
        ensures { self.new ≡ record self.old { items = decision ∷ self.old.items } }
    {
        self.items.push_reserved(decision);
    }

    /// Takes the newest decision, if there is one.
    pub(crate) fn pop(&mut self) -> Option<Decision>
        ensures room { self.new.room ≡ self.old.room }
        ensures items { MatchOption result ((self.old.items ≡ []) × (self.new.items ≡ []))
            (λ d. self.old.items ≡ d ∷ self.new.items) }
    {
        self.items.pop()
    }
}
