ghost use Rattle.checkable_scenes.specs.CheckableLaws.{ScopesAreResolved, ExpressionsAreTyped, ScenesAreGrounded, VehiclesAreLimited, RangesAreNarrow, ScenesAreLimited, ScenesAreExpanded, ScenesHaveReads, ModifiersAreSound, ScenesAreTyped, ScenesAreCheckable};

/// The law that each scope of a program without faults leaves nothing open, if what `it` stands for is
/// told. The premise of `expr_eval::type_of` is met in each of them.
pub fn scopes_are_resolved()
    ensures { ScopesAreResolved }
{}

/// The law that each expression of a program without faults has a typed form in the scope in which it
/// is judged, which leaves nothing open.
pub fn expressions_are_typed()
    ensures { ExpressionsAreTyped }
{}

/// The law that the conditions of spots, constraints and modifiers of a named scenario's scene are
/// grounded, and that the members of each phase are as its kind says.
pub fn scenes_are_grounded()
    ensures { ScenesAreGrounded }
{}

/// The law that each vehicle of a named scenario's scene has a greatest speed and acceleration.
pub fn vehicles_are_limited()
    ensures { VehiclesAreLimited }
{}

/// The law that a modifier's range can be compared with every quantity of a run, without a number that
/// is too great.
pub fn ranges_are_narrow()
    ensures { RangesAreNarrow }
{}

/// The law that the scene of a named scenario that isn't too large has what the reach of flat rules
/// needs.
pub fn scenes_are_limited()
    ensures { ScenesAreLimited }
{}

/// The law that the scene of a named scenario that isn't too large, under a setting within its limits,
/// has what the laws of flat forms need.
pub fn scenes_are_expanded()
    ensures { ScenesAreExpanded }
{}

/// The law that each expression of a named scenario's scene reads durations and values that the scene
/// has, each as the read's kind and size say.
pub fn scenes_have_reads()
    ensures { ScenesHaveReads }
{}

/// The law that each modifier of a named scenario's scene has a phase, its vehicles, and the sound
/// ends of its range.
pub fn modifiers_are_sound()
    ensures { ModifiersAreSound }
{}

/// The law that each constraint of a named scenario's scene is a sound truth value or removes the
/// defaults of a target, and that what its constraints and modifiers read has a value.
pub fn scenes_are_typed()
    ensures { ScenesAreTyped }
{}

/// The law that a scene that is expanded and limited can be checked.
pub fn scenes_are_checkable()
    ensures { ScenesAreCheckable }
{}
