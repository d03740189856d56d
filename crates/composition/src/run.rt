use expr_nodes::{Path, Row, Text};
use keep_rules::path_index::osc_base::Sample;

/// What a field holds: a whole number, or a text for a field of type `string`.
///
/// A field of a physical type holds thousandths of its base unit, a `bool` 0 or 1, and an enum its
/// member's number.
#[derive(Drop)]
pub enum Held {
    Number(i64),
    Chars(Text),
}

/// The member that a `one_of` chose, counted from 0.
#[derive(Drop)]
pub struct Choice {
    pub path: Path,
    pub member: u32,
}

/// What the field at a path holds.
#[derive(Drop)]
pub struct Value {
    pub path: Path,
    pub held: Held,
}

/// The ticks at which a phase starts and ends.
#[derive(Drop)]
pub struct Span {
    pub path: Path,
    pub start: u32,
    pub end: u32,
}

/// The samples of a vehicle, one for each tick from 0 to the run's end.
#[derive(Drop)]
pub struct Trace {
    pub path: Path,
    pub samples: Row<Sample>,
}

/// One concrete run of a scenario: its choices, its last tick, its phases, the length of its ticks, the
/// traces of its vehicles and the values of its fields. Each list is in the order in which the scenario
/// is expanded.
#[derive(Drop)]
pub struct Run {
    pub choices: Row<Choice>,
    pub end: u32,
    pub phases: Row<Span>,
    /// The length of a tick in milliseconds.
    pub tick: u32,
    pub traces: Row<Trace>,
    pub values: Row<Value>,
}
