//! Laws on what is written of a search.

ghost use Rattle.search_answers.specs.AcceptedTexts.{WrittenRecordsAreOpen, WrittenRecordsAreWithinLimit, WrittenRefutationsAreAccepted, WrittenRefutationsAreWithinLimit, WrittenRunsAreRight};
ghost use Rattle.search_answers.specs.SpentBoxes.{SpentBoxesHaveMorePoints};
ghost use Rattle.search_answers.specs.Tries.{MoreTriesKeepWhatIsDecided, OneTryIsOneSearch};

/// The law that the text of a refutation is accepted by the check of refutations.
pub fn written_refutations_are_accepted()
    ensures { WrittenRefutationsAreAccepted }
{}

/// The law that the check of refutations finds the text of a record that is spent open, with all its cuts.
pub fn written_records_are_open()
    ensures { WrittenRecordsAreOpen }
{}

/// The law that the text of a refutation that is found with at most 1,000,000 cuts isn't too long for the check of refutations.
pub fn written_refutations_are_within_limit()
    ensures { WrittenRefutationsAreWithinLimit }
{}

/// The law that the text of a record that is spent with at most 1,000,000 cuts isn't too long for the check of refutations.
pub fn written_records_are_within_limit()
    ensures { WrittenRecordsAreWithinLimit }
{}

/// The law that the check of runs finds nothing wrong with a run that is written.
pub fn written_runs_are_right()
    ensures { WrittenRunsAreRight }
{}

/// The law that a record is spent only if the scene's flat form has more points than the record has cuts.
pub fn spent_boxes_have_more_points()
    ensures { SpentBoxesHaveMorePoints }
{}

/// The law that with one try the reply is that of a search with the given seed.
pub fn one_try_is_one_search()
    ensures { OneTryIsOneSearch }
{}

/// The law that a reply which is decided within some tries is right with more tries too.
pub fn more_tries_keep_what_is_decided()
    ensures { MoreTriesKeepWhatIsDecided }
{}
