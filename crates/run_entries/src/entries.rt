//! The entries of a run, by their paths.

ghost use Rattle.run_entries.specs.RunPlaces.{RunPlaces};

use crate::run_index::{RunIndex, found};
use composition::{Choice, Guard, Held, Run, Scene, Span, Trace, Value};
use osc_base::{Path, Sample};
use std::alloc::{AllocError, Global};

/// A run with an index by path of each of its lists. What a run holds at a path is what the first entry with that path
/// says.
#[derive(Drop)]
pub struct Entries<'a> {
    run: &'a Run,
    choices: RunIndex<'a>,
    phases: RunIndex<'a>,
    traces: RunIndex<'a>,
    values: RunIndex<'a>,
    ghost choices_at: { RunPlaces choices (λ c. c.path) run.now.choices },
    ghost phases_at: { RunPlaces phases (λ s. s.path) run.now.phases },
    ghost traces_at: { RunPlaces traces (λ t. t.path) run.now.traces },
    ghost values_at: { RunPlaces values (λ v. v.path) run.now.values },
}

impl<'a> Entries<'a> {
    ghost use Rattle.std.specs.Prelude.{◌≡◌, find, option_copied, IfOk};
    ghost use Rattle.osc_base.specs.Paths.{same_path};
    ghost use Rattle.composition.specs.RunParts.{choice_in, span_in, held_in, samples_in};
    ghost use Rattle.composition.specs.There.{is_met as meets, are_met as meet_all, is_there as stands};
    ghost use Rattle.composition.specs.SeenScenes.{seen_scene};
    ghost use Rattle.composition.specs.declared.guard.Guard.{Guard};
    ghost use Rattle.run_entries.specs.SeenRuns.{seen_run};

    /// The entries of a run. Out of memory is the only error.
    pub fn of(alloc: Global, run: &'a Run) -> Result<Entries<'a>, AllocError>
        ensures { IfOk result (λ e. seen_run e ≡ run.now) }
    {
        let choices = RunIndex::of(alloc, run.choices.as_slice())?;
        let phases = RunIndex::of(alloc, run.phases.as_slice())?;
        let traces = RunIndex::of(alloc, run.traces.as_slice())?;
        let values = RunIndex::of(alloc, run.values.as_slice())?;
        Ok(Entries {
            run,
            choices,
            phases,
            traces,
            values,
        })
    }

    /// The last tick of the run.
    pub fn end(&self) -> u32
        ensures { result ≡ (seen_run self.now).end }
    {
        self.run.end
    }

    /// The length of the run's ticks in milliseconds.
    pub fn tick(&self) -> u32
        ensures { result ≡ (seen_run self.now).tick }
    {
        self.run.tick
    }

    /// The choices that the run lists.
    pub fn choices(&self) -> &[Choice]
        ensures { result.now ≡ (seen_run self.now).choices }
    {
        self.run.choices.as_slice()
    }

    /// The phases that the run lists.
    pub fn phases(&self) -> &[Span]
        ensures { result.now ≡ (seen_run self.now).phases }
    {
        self.run.phases.as_slice()
    }

    /// The traces that the run lists.
    pub fn traces(&self) -> &[Trace]
        ensures { result.now ≡ (seen_run self.now).traces }
    {
        self.run.traces.as_slice()
    }

    /// The values that the run lists.
    pub fn values(&self) -> &[Value]
        ensures { result.now ≡ (seen_run self.now).values }
    {
        self.run.values.as_slice()
    }

    fn choice(&self, path: &Path) -> Option<&Choice>
        ensures { option_copied result ≡ find (λ c. same_path c.path path.now) (seen_run self.now).choices }
    {
        found(&self.choices, self.run.choices.as_slice(), path)
    }

    fn value(&self, path: &Path) -> Option<&Value>
        ensures { option_copied result ≡ find (λ v. same_path v.path path.now) (seen_run self.now).values }
    {
        found(&self.values, self.run.values.as_slice(), path)
    }

    fn trace(&self, path: &Path) -> Option<&Trace>
        ensures { option_copied result ≡ find (λ t. same_path t.path path.now) (seen_run self.now).traces }
    {
        found(&self.traces, self.run.traces.as_slice(), path)
    }

    /// The member that the `one_of` at the path chose.
    pub fn member(&self, path: &Path) -> Option<u32>
        ensures { result ≡ choice_in (seen_run self.now) path.now }
    {
        match self.choice(path) {
            Some(choice) => Some(choice.member),
            None => None,
        }
    }

    /// The ticks of the phase at the path.
    pub fn span(&self, path: &Path) -> Option<&Span>
        ensures { option_copied result ≡ span_in (seen_run self.now) path.now }
    {
        found(&self.phases, self.run.phases.as_slice(), path)
    }

    /// What the field at the path holds.
    pub fn held(&self, path: &Path) -> Option<&Held>
        ensures { option_copied result ≡ held_in (seen_run self.now) path.now }
    {
        match self.value(path) {
            Some(value) => Some(&value.held),
            None => None,
        }
    }

    /// The samples of the vehicle at the path.
    pub fn samples(&self, path: &Path) -> Option<&[Sample]>
        ensures { option_copied result ≡ samples_in (seen_run self.now) path.now }
    {
        match self.trace(path) {
            Some(trace) => Some(trace.samples.as_slice()),
            None => None,
        }
    }

    /// The run's entry for the condition's path says so.
    pub fn is_met(&self, guard: &Guard) -> bool
        ensures { result ≡ meets (seen_run self.now) guard.now }
    {
        match guard {
            Guard::Choice { phase, member } => self.chose(phase, *member),
            Guard::Value { path, value } => self.holds(path, *value),
        }
    }

    /// The `one_of` at the path chose this member.
    fn chose(&self, phase: &Path, member: u32) -> bool
        ensures { result ≡ meets (seen_run self.now) (Guard.Choice phase.now member) }
    {
        match self.member(phase) {
            Some(chosen) => member == chosen,
            None => false,
        }
    }

    /// The field at the path holds this number.
    fn holds(&self, path: &Path, number: i64) -> bool
        ensures { result ≡ meets (seen_run self.now) (Guard.Value path.now number) }
    {
        match self.held(path) {
            Some(Held::Number(held)) => *held == number,
            Some(Held::Chars(_)) => false,
            None => false,
        }
    }

    /// All conditions are met.
    pub fn are_met(&self, guards: &[Guard]) -> bool
        ensures { result ≡ meet_all (seen_run self.now) guards.now }
    {
        guards.iter().all(|guard| self.is_met(guard))
    }

    /// What stands at the path in the scene is there.
    pub fn is_there(&self, scene: &Scene, path: &Path) -> bool
        ensures { result ≡ stands (seen_scene scene.now) (seen_run self.now) path.now }
    {
        self.are_met(scene.guards(path))
    }
}
