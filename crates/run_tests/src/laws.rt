//! Laws on the texts of runs.

ghost use Rattle.run_tests.specs.RoundTrips.{MigrationsAreReadBack, WrittenRunsAreReadBack};

/// The law that the text of a run is read as that run, if each path of the run has a text and its ticks have a length
/// that the words may give.
pub fn written_runs_are_read_back()
    ensures { WrittenRunsAreReadBack }
{}

/// The law that a run which is read from a text of either form is written in a text that is read as that run.
pub fn migrations_are_read_back()
    ensures { MigrationsAreReadBack }
{}
