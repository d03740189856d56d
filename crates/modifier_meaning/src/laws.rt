ghost use Rattle.modifier_meaning.specs.ModifierLaws.{TypedInIsPut, FormsInArePut, PartsAgree, ExpansionsAgree, UnfoldingKeepsScenes, UnfoldingKeepsScenarios, UnfoldingKeepsInstances, NothingToUnfold, UnfoldedFilesMean};
ghost use Rattle.modifier_meaning.specs.UnfoldedTypes.{BodiesAgree};

/// The law that an expression of a modifier, read with parameters that stand for arguments, has the
/// typed form of the expression in which the arguments are put in.
pub fn typed_in_is_put()
    ensures { TypedInIsPut }
{}

/// The law that it begins at the same place, is a path if that is one, and has as many tokens.
pub fn forms_in_are_put()
    ensures { FormsInArePut }
{}

/// The law that the parts of a `with:`, read where they stand, give the constraints and modifiers
/// that the unfolded parts give.
pub fn parts_agree()
    ensures { PartsAgree }
{}

/// The law that the types of the program without modifiers are those of the program as written, with
/// each `do` unfolded.
pub fn bodies_agree()
    ensures { BodiesAgree }
{}

/// The law that a scenario as written expands to what it expands to where each `do` is unfolded.
pub fn expansions_agree()
    ensures { ExpansionsAgree }
{}

/// The law that the scene of a scenario of a program as written is that of the program without
/// modifiers.
pub fn unfolding_keeps_scenes()
    ensures { UnfoldingKeepsScenes }
{}

/// The law that a name names the same scenario in a program as written and in the program without
/// modifiers.
pub fn unfolding_keeps_scenarios()
    ensures { UnfoldingKeepsScenarios }
{}

/// The law that a run is an instance of a program as written exactly where it is one of the program
/// without modifiers.
pub fn unfolding_keeps_instances()
    ensures { UnfoldingKeepsInstances }
{}

/// The law that files without modifiers stay as they are.
pub fn nothing_to_unfold()
    ensures { NothingToUnfold }
{}

/// The law that unfolded files are the program without modifiers.
pub fn unfolded_files_mean()
    ensures { UnfoldedFilesMean }
{}
