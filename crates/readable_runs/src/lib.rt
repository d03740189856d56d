//! The law that the text of each run that a search reaches can be read back.
#![tactic(auto)]

mod laws;

pub use laws::reached_runs_can_be_read;
pub use search_answers::{RunOrReply, generate, run_or_reply};
pub use source_scenes::{FoundScene, reply_to_stop, scene_in};
