use expr_nodes::{Path, Row};

/// A `one_of`, and how many members it has.
#[derive(Drop)]
pub struct ChoiceSpot {
    pub path: Path,
    pub members: u32,
}

/// What a field may hold.
#[derive(Drop)]
pub enum ValueRange {
    /// The whole numbers from one to another.
    Between { low: i64, high: i64 },
    /// These numbers, ascending: those of an enum.
    Among { numbers: Row<i64> },
    /// The texts of the program.
    Chars,
}

/// A field that holds a value.
#[derive(Drop)]
pub struct ValueSpot {
    pub path: Path,
    pub range: ValueRange,
}

/// What a phase is, and by which rule it is arranged.
#[derive(Clone, Copy)]
pub enum PhaseKind {
    /// `serial`.
    Serial,
    /// `parallel` whose members start together.
    Start,
    /// `parallel` whose members end together.
    End,
    /// `parallel` whose members start and end together.
    Equal,
    /// `parallel` whose members share a moment.
    Any,
    /// `one_of`.
    OneOf,
    /// An invocation of a scenario with a `do`.
    Scenario,
    /// Any other invocation.
    Action,
    /// `wait`.
    Wait,
}

/// A phase, and the paths of its members. An invocation of a scenario with a `do` has that as its
/// only member; another invocation and a wait have none.
#[derive(Drop)]
pub struct PhaseSpot {
    pub path: Path,
    pub kind: PhaseKind,
    pub members: Row<Path>,
}
