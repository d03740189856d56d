//! The messages for people about answers: why there is no run, what helps if nothing is decided, and why a run or a
//! record is refused.
//!
//! A message goes to standard error, after the answer. No contract speaks of its text: what is proved is that it is made
//! safely. It says nothing that isn't known from the answer, the files that were read, and the listing of `flat`.
#![tactic(auto)]

mod causes;
mod closed_places;
mod imports;
mod limits;
mod outcome;
mod refuted;
mod undecided;

pub use outcome::{Outcome, listing_words, outcome_message};
