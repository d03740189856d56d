//! The law.

ghost use Rattle.readable_runs.specs.ReadableRuns.{ReachedRunsCanBeRead};

/// The law that the text of each run that a search reaches is UTF-8, and that each path of the run has a text.
pub fn reached_runs_can_be_read()
    ensures { ReachedRunsCanBeRead }
{}
