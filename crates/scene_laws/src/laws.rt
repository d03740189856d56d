ghost use Rattle.scene_laws.specs.SceneLaws.{ScenesHaveRanges, ScenesAreLaidOut, ScenesAreFew, TypedAreSound, ConditionsAreGrounded, ConditionsAreSmall};

/// The law that the values of a scene hold a number, enums in order, that each `one_of` has a member,
/// and that the texts are distinct.
pub fn scenes_have_ranges()
    ensures { ScenesHaveRanges }
{}

/// The law that within each sort of spots of a named scenario's scene a path stands once, that phases
/// stand in phases, and that no spot stands where a duration is read.
pub fn scenes_are_laid_out()
    ensures { ScenesAreLaidOut }
{}

/// The law that the scene of a scenario that isn't too large has few slots and few rules.
pub fn scenes_are_few()
    ensures { ScenesAreFew }
{}

/// The law that the typed form of an expression is sound, and stays so when its paths are replaced.
pub fn typed_are_sound()
    ensures { TypedAreSound }
{}

/// The law that the conditions of constraints and modifiers are grounded, if those of spots are.
pub fn conditions_are_grounded()
    ensures { ConditionsAreGrounded }
{}

/// The law that the conditions of constraints and modifiers ask for small numbers, if those of spots
/// do.
pub fn conditions_are_small()
    ensures { ConditionsAreSmall }
{}
