ghost use Rattle.std.specs.Prelude.{◌≡◌, ◌<◌, [], ◌∷◌, length, IfOk};
ghost use Rattle.refute_check.specs.Stack.{popped, rest};

use box_eval::Cut;
use std::alloc::{AllocError, Global};
use std::marker::Model;

/// A cut whose second part wasn't read yet, and the number of cuts above it.
#[derive(Clone, Copy)]
pub(crate) struct Pending {
    pub(crate) cut: Cut,
    pub(crate) mark: u32,
}

/// The cuts whose second part wasn't read yet, the latest first. It takes memory in `new` alone.
#[derive(Drop)]
pub(crate) struct Stack {
    items: Vec<Pending>,
    room: u32,
}

impl Model for Stack {
    ghost use Rattle.refute_check.specs.Stack.{Stacked};

    ghost Value = { Stacked };

    ghost use Rattle.refute_check.specs.StackFields.{stacked, IsStack};

    ghost view = { stacked };

    ghost invariant = { IsStack };
}

impl Stack {
    /// An empty stack with room for so many.
    pub(crate) fn new(alloc: Global, room: u32) -> Result<Stack, AllocError>
        ensures { IfOk result (λ s. s ≡ record { items = []; room = room }) }
    {
        Ok(Stack {
            items: Vec::with_capacity(alloc, room as usize)?,
            room,
        })
    }

    pub(crate) fn push(&mut self, pending: Pending)
        requires { length self.old.items < self.old.room }
        ensures { self.new ≡ record { items = pending ∷ self.old.items; room = self.old.room } }
    {
        // there is room, so no memory is taken
        match self.items.push(pending) {
            Ok(()) => {}
            Err(_) => {}
        }
    }

    pub(crate) fn pop(&mut self) -> Option<Pending>
        ensures top { result ≡ popped self.old.items }
        ensures rest { self.new ≡ record { items = rest self.old.items; room = self.old.room } }
    {
        self.items.pop()
    }
}
