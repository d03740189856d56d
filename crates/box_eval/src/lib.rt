//! Rules over numbered slots, and the boxes that they are judged on.
#![tactic(auto)]

mod bounds;
mod cut;
mod flat;
mod judgement;
mod point;
mod rule;
mod slots;
mod verdict;
mod whole;

pub use bounds::{Bounds, Ends, Pair};
pub use cut::{Cut, Side};
pub use flat::Flat;
pub use judgement::judge;
pub use point::{Point, truth};
pub use rule::{Rule, Term};
pub use slots::slots_of;
pub use verdict::Verdict;

// Crates below, for the crates above.
pub use osc_base;
