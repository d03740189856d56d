ghost use Rattle.record_laws.specs.OneAnswer.{RefutationsAreRefuted, UndecidedAreOpen};

/// Of the text of a refutation, `Refuted` is the one right answer of `verify`. Of the text of an accepted record with an open
/// leaf it is `Open`, with the record's cuts. No line of such a text is bad.
pub fn laws()
    ensures refuted { RefutationsAreRefuted }
    ensures undecided { UndecidedAreOpen }
{}
