//! Distinct numbers below a bound that wait, and the order in which they are taken.
#![tactic(auto)]

mod chain;
mod queue;
mod ring;
mod sweep;
#[cfg(test)]
mod tests;

// A contract of another crate can name the ring only if the types of its fields are exported.
#[doc(hidden)]
pub use chain::Chain;
pub use queue::NumberQueue;
pub use ring::WakeRing;
#[doc(hidden)]
pub use sweep::Sweep;
