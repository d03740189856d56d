//! The values of typed expressions.
#![tactic(auto)]

mod count;
mod counts;
mod laws;
mod reading;
mod values;

pub use laws::worths_are_fractions;
pub use reading::Reading;
pub use values::{constant, is_held, value};
