//! The first constraint and the first modifier that fail in a run.
#![tactic(auto)]

mod constraints;
mod defaults;
mod modifiers;
mod presence;
mod truth;

pub use constraints::first_hard;
pub use defaults::first_default;
pub use modifiers::first_modifier;
pub use run_values::{
    Entries, Numbers, ends_right, first_choice_out, first_disarranged, first_span_out,
    first_trace_out, first_uneven, first_unlisted, first_value_out, has_root_do,
};
