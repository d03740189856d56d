//! Laws of expansions: their parts one after another, and how many objects, slots and rules a scene has.
#![tactic(auto)]

pub use composition::Scene;
