//! What people are told of the codes of faults and of the statuses that refuse: what each means, an example and how to
//! mend it.
//!
//! The messages on standard error, `osc explain` and a section of `docs/FORMATS.md` come from the texts here.
#![tactic(auto)]

mod explain;
mod form;
mod grammar;
mod lexical;
mod meaning;
mod statuses;
mod texts;
mod topics;

pub use explain::{explanation, topic_list};
pub use form::CodeText;
pub use texts::{fault_text, status_text};
pub use topics::{Status, Topic, topic_named};
