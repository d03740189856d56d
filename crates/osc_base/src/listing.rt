use crate::{Path, Place};

/// What a slot of a flat form holds.
#[derive(Debug, PartialEq, Eq, Drop)]
pub enum SlotName {
    /// The member that the `one_of` at the path chose, counted from 0.
    Choice { path: Path },
    /// The tick at which the phase at the path starts.
    Start { path: Path },
    /// The tick at which the phase at the path ends.
    End { path: Path },
    /// The value of the field at the path.
    Value { path: Path },
    /// The lane of the vehicle at the path at a tick.
    Lane { path: Path, tick: u32 },
    /// Its position at a tick, in micrometres.
    Position { path: Path, tick: u32 },
    /// Its speed at a tick, in millimetres a second.
    Speed { path: Path, tick: u32 },
}

/// What a rule of a flat form says.
#[derive(Debug, PartialEq, Eq, Drop)]
pub enum RuleName {
    /// The hard constraint at the place holds.
    Hard { place: Place },
    /// The default at the place holds or is overridden.
    Default { place: Place },
    /// The field at the path holds a number of its enum.
    Typed { path: Path },
    /// The phase at the path is arranged.
    Arranged { path: Path },
    /// The modifier at the place holds, if the tick is one of its moments.
    Modifier { place: Place, tick: u32 },
    /// The vehicle at the path moves as it may from the tick to the next.
    Motion { path: Path, tick: u32 },
}
