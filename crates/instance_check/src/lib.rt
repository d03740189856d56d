//! Whether a run is an instance of a scene, or why it is none.
#![tactic(auto)]

mod inner;
mod laws;
mod outer;
mod whole;
mod wrongs;

pub use laws::instances_alone_are_right;
pub use run_check::{Clause, Run, Scene, Wrong, write_run};
pub use whole::check;
