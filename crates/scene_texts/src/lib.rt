//! What the texts of a scenario come to in its expansion: paths from the named scenario on and their homes, and numbers of
//! tokens.
#![tactic(auto)]

mod counts;
mod homes;
mod paths;
mod token_counts;

pub use counts::{add, times};
pub use expansion_laws::Scene;
pub use homes::{Bound, Moves, home};
pub use paths::{
    from_object, joined, same_path, then_do, then_duration, then_index, then_member, then_name,
};
pub use token_counts::{arguments_tokens, path_tokens, tokens, value_tokens};
