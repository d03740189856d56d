//! Tests of the load of files: names, programs of several files, and trees that are spelled again.
#![tactic(auto)]

#[cfg(test)]
mod loads;
#[cfg(test)]
mod names;
#[cfg(test)]
mod trees;
