//! Tests of the types of a program that is loaded from its source.
#![tactic(auto)]

#[cfg(test)]
mod built;
#[cfg(test)]
mod conditional;
#[cfg(test)]
mod members;
#[cfg(test)]
mod queries;
