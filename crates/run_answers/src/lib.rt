//! What is answered of the file of a run: what `check` says of a scene and the run, and what `export` and `migrate` write.
#![tactic(auto)]

mod answers;
mod found;
mod laws;
mod run_files;
mod verdicts;

pub use answers::{check, export, migrate};
pub use command_replies::{Reply, Status, done, refused_source, words_refused};
pub use instance_check::{Run, Scene, write_run};
pub use laws::{exports_are_read_back, read_runs_are_plain};
pub use run_exports::{Form, Road, Style};
pub use run_texts::Setting;
