//! Tests of flat forms on a scene that is made by hand.
#![tactic(auto)]

#[cfg(test)]
mod forms;
#[cfg(test)]
mod scenes;
