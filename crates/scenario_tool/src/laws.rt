ghost use Rattle.scenario_tool.specs.Completeness.{DecidedByPoints, SoundInputsHaveOutcomes};
ghost use Rattle.scenario_tool.specs.Laws.{NeverBoth, OneAnswer, SomeAnswer};
ghost use Rattle.scenario_tool.specs.Verified.{NeverFoundAndVerified, VerifiedMeansNone};
ghost use Rattle.scenario_tool.specs.Written.{WrittenRecordsAreOpen, WrittenRefutationsAreAccepted, WrittenRunsAreAccepted};

/// The law that words and files have one right answer, or, for a search, many of which each is an outcome of a search.
pub fn one_answer()
    ensures { OneAnswer }
{}

/// The law that a source never has both a run and a refutation.
pub fn never_both()
    ensures { NeverBoth }
{}

/// The law that words and files have some right answer, if they don't ask for a search: it can't be that they have
/// none.
pub fn some_answer()
    ensures { SomeAnswer }
{}

/// The law that no right answer is a refusal if all that the words name is sound: the source, and the run or the record.
pub fn sound_inputs_have_outcomes()
    ensures { SoundInputsHaveOutcomes }
{}

/// The law that a search is decided if it may make as many cuts as the scene's flat form has points.
pub fn decided_by_points()
    ensures { DecidedByPoints }
{}

/// The law that `check` says `yes` of each run that `generate` wrote, if its text isn't too long.
pub fn written_runs_are_accepted()
    ensures { WrittenRunsAreAccepted }
{}

/// The law that `verify` says `yes` of each refutation that `generate` wrote.
pub fn written_refutations_are_accepted()
    ensures { WrittenRefutationsAreAccepted }
{}

/// The law that `verify` finds each other record that `generate` wrote open, with all the cuts that were asked for.
pub fn written_records_are_open()
    ensures { WrittenRecordsAreOpen }
{}

/// The law that a source has no instance if `verify` says `yes`, of whatever record.
pub fn verified_means_none()
    ensures { VerifiedMeansNone }
{}

/// The law that a source never has both a run by `generate` and a `yes` by `verify`.
pub fn never_found_and_verified()
    ensures { NeverFoundAndVerified }
{}
