//! Why a run is no instance of a scenario, in words: what stands there, and what is asked for. What messages about answers
//! share is here too: the setting in words, places of a source, and numbers that it writes out.
//!
//! No contract speaks of the text of a message: what is proved is that it is made safely.
#![tactic(auto)]

mod asked_value;
mod asks;
mod clause;
mod decimals;
mod modifier;
mod motion;
mod places;
mod read_values;
mod run_parts;
mod setting;

pub use asked_value::{Ends, ends_in};
pub use asks::{Asks, asked_at, is_duration};
pub use clause::put_failed;
pub use decimals::{put_decimal, put_seconds};
pub use places::{RulePlace, place_in, put_place, view_at};
pub use setting::{Asked, Command, asked_in, put_call, put_setting};
