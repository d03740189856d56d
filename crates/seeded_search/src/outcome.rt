use box_eval::Point;
use search_laws::Record;

/// What a search answers.
#[derive(Drop)]
pub enum Outcome {
    /// A point of the flat form's box at which all rules are true.
    Point(Point),
    /// A record that refutes the flat form: no point of its box meets all rules.
    Refuted(Record),
    /// The record of a search whose cuts were all made before it found one or the other.
    Undecided(Record),
}
