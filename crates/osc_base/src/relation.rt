//! What modifiers ask of samples, as data.

/// A number that a sample has.
#[derive(Debug, Clone, Copy, PartialEq, Eq)]
pub enum Quantity {
    Lane,
    Position,
    Speed,
}

/// Where a number is read.
#[derive(Debug, Clone, Copy, PartialEq, Eq)]
pub enum Reading {
    /// In the sample of the own vehicle.
    Own(Quantity),
    /// In the sample of the other vehicle.
    Other(Quantity),
    /// In the sample of the own vehicle at the next tick.
    Next(Quantity),
}

/// What the numbers of a range count.
#[derive(Debug, Clone, Copy, PartialEq, Eq)]
pub enum Rate {
    /// Lanes, metres, or metres a second.
    Whole,
    /// By how many metres a second a speed grows in a second, if it grows so within a tick.
    Tick,
    /// The metres that so many seconds take at this speed.
    Headway(Reading),
}

/// A side of the road, as one drives. Lane numbers grow to the left.
#[derive(Debug, Clone, Copy, PartialEq, Eq)]
pub enum Side {
    Left,
    Right,
}

/// What a modifier asks of the samples of its own vehicle and of the other one.
#[derive(Debug, Clone, Copy, PartialEq, Eq)]
pub enum Relation {
    /// What is read lies in the range.
    Within(Reading, Rate),
    /// How much more the first is than the second lies in the range.
    Apart(Reading, Reading, Rate),
    /// The first is so much more than the second.
    Beside(Reading, Reading, i8),
    /// From the start of the phase to its end the own lane changes by a number in the range, and by at least 1. No step
    /// goes to the other side. Without a side either will do.
    Change(Option<Side>),
}
