//! Tests of the messages for people, and of the example of each code.
#![tactic(auto)]

#[cfg(test)]
mod call;
#[cfg(test)]
mod examples;
#[cfg(test)]
mod faults;
#[cfg(test)]
mod kept;
#[cfg(test)]
mod once_shelf;
#[cfg(test)]
mod refusals;
