//! The text of a run, one compact JSON object and a line feed, and why a run is no instance.
#![tactic(auto)]

mod run_text;
mod wrong;

pub use composition::{Clause, Run, Scene, Trace};
pub use run_text::write_run;
pub use wrong::Wrong;
