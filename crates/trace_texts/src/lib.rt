//! Recordings read from their texts.
#![tactic(auto)]

mod gathered;
mod read;
mod stop;

pub use asked_forms::Traces;
pub use read::read_traces;
pub use stop::TracesStop;
