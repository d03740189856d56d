//! Sums of linear rules over a box: when such a sum shows that no point meets its rules, and the first pair of rules that face each other.
#![tactic(auto)]

mod forms;
mod least;
mod multiples;
mod pairs;
mod pick;
mod seen;
mod summing;
mod two_slots;
mod weighing;

pub use pairs::facing_pair;
pub use pick::{Facing, MOST_PICKS, Pick};
pub use summing::sum_false;
pub use weighing::weight;
