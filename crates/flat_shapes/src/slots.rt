//! Where the slots stand that expressions read.

ghost use Rattle.std.specs.Prelude.{◌≡◌, ℕ, ◌≤◌};
ghost use Rattle.flat_terms.specs.field_flatten.Shapes.{Layout, read_term};
ghost use Rattle.flat_shapes.specs.Founds.{found_term};
ghost use Rattle.flat_shapes.specs.Room.{longest_tick};

use expr_nodes::Path;

/// The slots in which stands what is read at a path.
#[derive(Debug, Clone, Copy)]
pub enum Found {
    /// A value.
    Value { slot: u32 },
    /// The duration of a phase: the slots of its start and its end.
    Phase { start: u32, end: u32 },
    /// The duration of the run: the slot of its end. A run without one ends at tick 0.
    Run { end: Option<u32> },
}

/// What the slots of a scene are called by.
pub trait Slots {
    ghost layout: { Self → Layout };

    /// The slots in which stands what is read at the path.
    fn find(&self, path: &Path) -> Found
        ensures { (per e : ℕ) → found_term (layout self.now).tick result per e ≡ read_term (layout self.now) path.now per ((layout self.now).source path.now) e };

    /// The length of a tick in milliseconds, at most a minute.
    fn tick(&self) -> u32
        ensures is { result ≡ (layout self.now).tick }
        ensures small { result ≤ longest_tick };
}
