/// What a modifier says of the samples of its own vehicle and of another one.
#[derive(Debug, Clone, Copy, PartialEq, Eq)]
pub enum Kind {
    /// The own speed is in a range.
    Speed,
    /// The own speed minus the other's is in a range.
    FasterThan,
    /// The other's speed minus the own is in a range.
    SlowerThan,
    /// The own speed is the other's.
    SameSpeed,
    /// The own lane is in a range.
    Lane,
    /// The own lane is the other's.
    SameLane,
    /// The own lane is the other's plus 1.
    LeftOf,
    /// The own lane is the other's minus 1.
    RightOf,
    /// The own position is in a range.
    Position,
    /// The own position minus the other's is in a range.
    AheadOf,
    /// The other's position minus the own is in a range.
    Behind,
}

/// The ticks of a phase at which a modifier holds.
#[derive(Debug, Clone, Copy, PartialEq, Eq)]
pub enum Moment {
    /// The tick at which the phase starts.
    Start,
    /// The tick at which the phase ends.
    End,
    /// Each tick from the start on and before the end.
    All,
}
