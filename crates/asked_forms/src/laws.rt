//! Laws on forms that ask less than their scene, or more.

ghost use Rattle.asked_forms.specs.AskedLaws.{FormsAreExactFor, AllKeptIsInstance, FewerKeptStay, BothAreSaid, NothingIsSaid};
ghost use Rattle.asked_forms.specs.Recordings.{PinsSay};
ghost use Rattle.asked_forms.specs.Suites.{PastRulesSay};

/// The law that the points of a form are the instances that it asks for: those that meet the hard constraints that are kept,
/// and of which is so what the further rules say. If no point of the box meets all rules, there is no such instance.
pub fn forms_are_exact()
    ensures { FormsAreExactFor }
{}

/// The law that an instance with all hard constraints kept is an instance of the scene.
pub fn all_kept_is_instance()
    ensures { AllKeptIsInstance }
{}

/// The law that an instance stays one if fewer hard constraints are kept.
pub fn fewer_kept_stay()
    ensures { FewerKeptStay }
{}

/// The law that two rows of further rules say what both say.
pub fn both_are_said()
    ensures { BothAreSaid }
{}

/// The law that no further rules say nothing.
pub fn nothing_is_said()
    ensures { NothingIsSaid }
{}

/// The law that the rules of a recording say that a run has its traces.
pub fn pins_say()
    ensures { PinsSay }
{}

/// The law that the rules of runs that were found say that a run has other choices than each of them.
pub fn past_rules_say()
    ensures { PastRulesSay }
{}
