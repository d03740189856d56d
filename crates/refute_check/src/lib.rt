//! Checks a refutation record against a flat form, line by line, as it is read.
#![tactic(auto)]

mod check;
mod cuts;
mod stack;
mod step;
mod sums;
mod walk;

pub use check::{Verified, verify};
pub use record_text::{VerifyStop, write_record};
