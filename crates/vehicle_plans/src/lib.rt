//! The plan of a scene's vehicles: in which order a search decides their slots, and what it tries first.
#![tactic(auto)]

mod blocks;
mod grid;
mod means;
mod plan;
mod starts;

pub use grid::{Grid, numbered};
pub use plan::plan_of;
