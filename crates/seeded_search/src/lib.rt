//! The search for a point of a flat form, or for a record that refutes it, over a trail and a ring that it is lent.
#![tactic(auto)]

mod adding;
mod course;
mod decisions;
mod desk;
mod draws;
mod guessing;
mod halving;
mod lists;
mod marks;
mod outcome;
mod picks;
mod places;
mod reasons;
mod retiring;
mod script;
mod searching;
mod sums;
mod task;
mod turns;
mod work;

// A contract of another crate can name a desk only if the types of its fields are exported.
#[doc(hidden)]
pub use decisions::Decisions;
pub use desk::Desk;
#[doc(hidden)]
pub use lists::Lists;
#[doc(hidden)]
pub use marks::Marks;
pub use outcome::Outcome;
#[doc(hidden)]
pub use picks::Picks;
#[doc(hidden)]
pub use reasons::Reasons;
#[doc(hidden)]
pub use script::Script;
pub use searching::search;
#[doc(hidden)]
pub use sums::Sums;

// Crates below, and items of theirs, for the crates above.
pub use bound_trail;
pub use search_laws::{Line, Pick, Record, refuted};
pub use search_plans::{Entry, Mean, Share, Wish};
