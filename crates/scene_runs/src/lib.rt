//! The run of a point of a scene's flat form.
#![tactic(auto)]

mod choices;
mod conditions;
mod end;
mod numbers;
mod phases;
mod run;
mod traces;
mod values;

pub use run::run_of;
