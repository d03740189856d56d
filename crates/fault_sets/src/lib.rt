//! What the first fault is found with: sets of what was met, ranks of types, and steps from type to type.
#![tactic(auto)]

mod passing;
mod ranks;
mod reach;
mod returning;
mod sets;

pub use passing::is_past;
pub use ranks::ranks_of;
pub use reach::{Steps, all_fresh, push_types, reached};
pub use returning::{Ranking, falls, rank_of};
pub use sets::{NumberSet, TextSet};
