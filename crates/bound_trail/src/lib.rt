//! The ends of each slot, with the changes that led to them, so that the changes can be undone.
#![tactic(auto)]

mod trail;

pub use trail::Trail;

#[cfg(test)]
mod tests;
