//! Units of the SI: exponents of the base units, and the slot values of physical literals.
#![tactic(auto)]

mod units;

pub use units::{Exponents, Unit, literal};

#[cfg(test)]
mod tests;

// Crates below, for the crates above.
pub use osc_base;
