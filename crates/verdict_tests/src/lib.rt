//! Tests of verdicts on rules that are made by hand.
#![tactic(auto)]

#[cfg(test)]
mod verdicts;
