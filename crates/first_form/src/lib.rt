//! Laws: texts of the first form of runs mean what they meant before ticks had a length of their own.
#![tactic(auto)]

mod laws;

pub use laws::{first_runs_are_read, first_runs_stay, instances_stay};
