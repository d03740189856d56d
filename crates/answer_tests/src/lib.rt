//! Tests of what `command` answers: to each form of the language, and to files and texts that fail.
#![tactic(auto)]

mod call;

pub use call::{Outside, SOUND, answer};
pub use scenario_tool::{one_answer, some_answer};

#[cfg(test)]
mod cases;
#[cfg(test)]
mod failures;
#[cfg(test)]
mod motion;
#[cfg(test)]
mod objects;
#[cfg(test)]
mod phases;
#[cfg(test)]
mod records;
#[cfg(test)]
mod searches;
#[cfg(test)]
mod values;
