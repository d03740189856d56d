/// A part of what makes a run an instance, in the order in which they are asked.
#[derive(Debug, Clone, Copy, PartialEq, Eq)]
pub enum Clause {
    /// The run lists exactly what is there, in order.
    Listed,
    /// The run ends with the scenario's `do`, within the setting's ticks.
    End,
    /// Everything in the run is in its type or range.
    Bounds,
    /// Each hard constraint that is there holds.
    Hard,
    /// Each default that is there and isn't overridden holds.
    Default,
    /// Each phase that is there is arranged by its kind.
    Arranged,
    /// Each modifier that is there holds at its moments.
    Modifier,
    /// Each vehicle moves as it may.
    Motion,
}
