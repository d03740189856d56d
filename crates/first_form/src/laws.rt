//! Laws on the first form of runs.

ghost use Rattle.first_form.specs.FirstFormLaws.{FirstRunsAreRead, FirstRunsStay, InstancesStay};

/// The law that data of the first form is read as the run that it was, with ticks of 100 milliseconds, and differs where
/// it differed.
pub fn first_runs_are_read()
    ensures { FirstRunsAreRead }
{}

/// The law that a run with ticks of 100 milliseconds is an instance under such ticks exactly if it was one before ticks
/// had a length of their own.
pub fn instances_stay()
    ensures { InstancesStay }
{}

/// The law that under ticks of 100 milliseconds a text of the first form is that of an instance exactly if it was one
/// before.
pub fn first_runs_stay()
    ensures { FirstRunsStay }
{}
