//! Tests of expressions that are made by hand.
#![tactic(auto)]

#[cfg(test)]
mod held;
#[cfg(test)]
mod laws;
#[cfg(test)]
mod numbers;
