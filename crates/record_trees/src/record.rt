ghost use Rattle.box_eval.specs.Rules.{IsEmpty};
ghost use Rattle.record_trees.specs.Record.{IsRefutation};

use box_eval::Flat;
use linear_sums::Pick;
use osc_base::Row;

/// A line of a record between its head and its end.
///
/// A cut divides the present box in two at a value of a slot, and is followed by the lines of its
/// first part and then of its second.
#[derive(Debug, PartialEq, Eq, Drop)]
pub enum Line {
    /// A cut whose first part has the slot up to the value, and whose second has it from one more.
    Low { slot: u32, value: i64 },
    /// The same cut with its parts exchanged: the first has the slot from one more than the value.
    High { slot: u32, value: i64 },
    /// The present box has no point at which the rule is true.
    Close { rule: u32 },
    /// The present box has no point at which all rules of a sum are true.
    Sum { count: u32 },
    /// Nothing is said of the present box.
    Unknown,
}

/// The claim that no point of a box meets all rules, or, if it is undecided, what is known of it.
#[derive(Debug, PartialEq, Eq, Drop)]
pub struct Record {
    /// Whether some box is left unknown.
    pub undecided: bool,
    /// The number of slots of the flat form.
    pub slots: u32,
    /// The number of its rules.
    pub rules: u32,
    /// A number that the cuts above a line never exceed.
    pub room: u32,
    pub lines: Row<Line>,
    /// The rules of all sums, line by line: a `Line::Sum` takes the next `count` of them.
    pub picks: Row<Pick>,
}

/// Of a record that is a refutation of a flat form, no point of its box meets all its rules.
pub fn refuted(flat: &Flat, claim: &Record)
    ensures { IsRefutation flat.now claim.now → IsEmpty flat.now.rules flat.now.bounds.pairs }
{}
