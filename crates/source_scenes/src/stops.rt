ghost use Rattle.std.specs.Prelude.{IfOk};
ghost use Rattle.source_scenes.specs.FoundScenes.{IsReplyToStop};

use command_replies::{Reply, failed_shelf, refused_source};
use loaded_programs::LoadStop;
use std::alloc::{AllocError, Global};

/// The reply to why no program was loaded; `main` is the name of the main file. Out of memory has none.
pub fn reply_to_stop(alloc: Global, main: &str, stop: &LoadStop) -> Result<Reply, AllocError>
    ensures { IfOk result (IsReplyToStop main.now stop.now) }
{
    match stop {
        LoadStop::At(refusal) => refused_source(alloc, main, refusal),
        LoadStop::Shelf(name) => failed_shelf(alloc, name.as_str()),
        LoadStop::Memory => Err(AllocError),
    }
}
