//! The numbers that a run holds, and whether vehicles move as they may.
#![tactic(auto)]

mod motion;
mod numbers;

pub use expr_value::value;
pub use field_flatten::Held;
pub use motion::sample_at;
pub use numbers::Numbers;
pub use run_clauses::{
    Entries, ends_right, first_choice_out, first_disarranged, first_span_out, first_trace_out,
    first_uneven, first_unlisted, first_value_out, has_root_do,
};
