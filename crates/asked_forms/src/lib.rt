//! Flat forms that ask less than their scene, or more.
#![tactic(auto)]

mod forms;
mod laws;
mod traces;

pub use field_flatten::Trace;
pub use forms::{added_is_flat, dropped_is_flat};
pub use laws::{
    all_kept_is_instance, both_are_said, fewer_kept_stay, forms_are_exact, nothing_is_said,
    past_rules_say, pins_say,
};
pub use traces::Traces;
