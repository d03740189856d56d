//! The run in a file.

ghost use Rattle.std.specs.Prelude.{◌≡◌, IfOk};
ghost use Rattle.command_replies.specs.Shelves.{CountsOnce};
ghost use Rattle.outside_io.specs.Files.{SomeFiles};
ghost use Rattle.run_answers.specs.FoundRuns.{IsFoundIn, IsFoundRun, IsReplyToRunStop, IsReplyToTextStop};

use crate::found::FoundRun;
use command_replies::{Reply, failed_shelf, long_file, missing_file, text_refused};
use outside_io::Shelf;
use run_texts::{RunStop, read_run};
use std::alloc::{AllocError, Global};
use text_load::{TextStop, load_text};

/// The most bytes of the file of a run.
const RUN_LIMIT: usize = 16 * 1024 * 1024;

/// The run in the shelf's file of this name.
pub fn load_run<H: Shelf>(alloc: Global, file: &str, shelf: &mut H) -> Result<FoundRun, AllocError>
    ensures found { IfOk result (λ found. SomeFiles (H.files shelf.old) (λ texts.
        IsFoundRun texts file.now (H.faults shelf.old) (H.faults shelf.new) found)) }
    ensures counted { CountsOnce (H.faults shelf.old) (H.faults shelf.new) }
    ensures files_kept { H.files shelf.new ≡ H.files shelf.old }
{
    match load_text(alloc, shelf, file, RUN_LIMIT) {
        Ok(bytes) => run_in(alloc, bytes.as_slice()),
        Err(stop) => Ok(FoundRun::Refused(reply_to_text_stop(alloc, file, stop)?)),
    }
}

/// The run that a text is.
fn run_in(alloc: Global, bytes: &[u8]) -> Result<FoundRun, AllocError>
    ensures { IfOk result (IsFoundIn bytes.now) }
{
    match read_run(alloc, bytes) {
        Ok(run) => Ok(FoundRun::Run(run)),
        Err(stop) => Ok(FoundRun::Refused(reply_to_run_stop(alloc, &stop)?)),
    }
}

/// The reply to a file that has no text.
fn reply_to_text_stop(alloc: Global, file: &str, stop: TextStop) -> Result<Reply, AllocError>
    ensures { IfOk result (IsReplyToTextStop file.now stop) }
{
    match stop {
        TextStop::Missing => missing_file(alloc, file),
        TextStop::Long => long_file(alloc, file),
        TextStop::Shelf => failed_shelf(alloc, file),
        TextStop::Memory => Err(AllocError),
    }
}

/// The reply to a text that is no run.
fn reply_to_run_stop(alloc: Global, stop: &RunStop) -> Result<Reply, AllocError>
    ensures { IfOk result (IsReplyToRunStop stop.now) }
{
    match stop {
        RunStop::BadJson => text_refused(alloc, "json"),
        RunStop::BadShape(pointer) => text_refused(alloc, pointer.as_str()),
        RunStop::Memory => Err(AllocError),
    }
}
