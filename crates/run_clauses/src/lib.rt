//! What makes a run an instance, part by part.
#![tactic(auto)]

mod arrangement;
mod bounds;
mod listing;
mod movement;

pub use arrangement::{arranged_holds, first_disarranged};
pub use bounds::{first_choice_out, first_span_out, first_trace_out, first_value_out};
pub use listing::{Standing, ends_right, first_uneven, first_unlisted, has_root_do, is_root_do};
pub use movement::{is_gentle, is_step, keeps_lane, moves_on};
pub use run_entries::Entries;
