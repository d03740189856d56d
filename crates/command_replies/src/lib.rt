//! What `osc` replies: a status, and the text that comes with it.
#![tactic(auto)]

mod body;
mod replies;
mod reply;
mod status;

pub use replies::{
    done, failed_shelf, fault, long_file, missing_file, no_line, not_instance, open_cuts,
    refused_source, text_refused, words_refused,
};
pub use reply::{Reply, refutation, undecided};
pub use status::Status;
