ghost use Rattle.std.specs.Prelude.{◌≡◌, ◌+◌, ◌<◌, ◌≤◌, [], ◌∷◌, ◌++◌, length, IfOk};
ghost use Rattle.search_laws.specs.Answers.{unknown_lines};

use osc_base::Row;
use search_laws::Line;
use std::alloc::{AllocError, Global};
use std::marker::Model;

/// The lines of a record so far, with memory for all that there will ever be.
#[derive(Drop)]
pub struct Script {
    lines: Vec<Line>,
    room: usize,
}

impl Model for Script {
    ghost use Rattle.std.specs.Prelude.{◌≤◌};
    ghost use Rattle.std.specs.Vec.{vec_capacity};
    ghost use Rattle.seeded_search.specs.Rooms.{Page};

    ghost Value = { Page };

    ghost view = { λ s. record { lines = s.lines.items; room = s.room } };

    ghost invariant = { λ s. s.room ≤ vec_capacity s.lines };
}

impl Script {
    /// No lines, and room for so many.
    pub(crate) fn new(alloc: Global, room: usize) -> Result<Script, AllocError>
        ensures { IfOk result (λ s. s ≡ record { lines = []; room = room }) }
    {
        let lines = Vec::with_capacity(alloc, room)?;
        Ok(Script { lines, room })
    }

    /// Puts a line at the end.
    pub(crate) fn push(&mut self, line: Line)
        requires { length self.old.lines < self.old.room }
        ensures { self.new ≡ record self.old { lines = self.old.lines ++ line ∷ [] } }
    {
        self.lines.push_reserved(line);
    }

    /// Puts so many lines at the end that leave a box unknown.
    pub(crate) fn push_unknowns(&mut self, count: usize)
        requires { length self.old.lines + count ≤ self.old.room }
        ensures { self.new ≡ record self.old { lines = self.old.lines ++ unknown_lines count } }
    {
        for _ in 0..count {
            self.push(Line::Unknown);
        }
    }

    /// The lines.
    pub(crate) fn finish(self) -> Row<Line>
        ensures { result ≡ self.lines }
    {
        Row::of(self.lines)
    }
}
