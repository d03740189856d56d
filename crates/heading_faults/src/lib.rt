//! The first fault of the headings of a program.
#![tactic(auto)]

mod brackets;
mod cycles;
mod declared;
mod headings;
mod heirs;
mod held;
mod held_types;
mod items;
mod levels;
mod members;
mod names;
mod references;
mod uses;

pub use headings::first_heading_fault;
