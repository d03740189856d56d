//! The texts in which a run leaves the tool: a table, a file for a simulator with its road, and a page for a browser.
#![tactic(auto)]

mod browser;
mod decimals;
mod forms;
mod lanes;
mod laws;
mod page_parts;
mod road;
mod storyboard;
mod table;
mod world;
mod xodr_parts;
mod xosc_parts;

pub use browser::page;
pub use forms::{Form, Style, run_in_form};
pub use lanes::xodr;
pub use laws::{
    middles_tell_lanes, pages_are_read_back, roads_are_read_back, tables_are_read_back,
    trajectories_are_read_back,
};
pub use road::Road;
pub use storyboard::xosc;
pub use table::csv;
