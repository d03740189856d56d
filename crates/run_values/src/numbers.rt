//! The numbers that a run holds at the paths of its scene.

ghost use Rattle.std.specs.Prelude.{◌≡◌, ◌≤◌, ◌*◌, length, pos, option_map};
ghost use Rattle.expr_value.specs.expr_nodes.Sizes.{duration_reach};
ghost use Rattle.field_flatten.specs.composition.Numbers.{text_number, thousandths};
ghost use Rattle.field_flatten.specs.composition.SeenScenes.{seen_scene};
ghost use Rattle.run_clauses.specs.run_entries.SeenRuns.{seen_run};
ghost use Rattle.run_values.specs.Frames.{IsWithin};

use expr_value::Reading;
use field_flatten::{Held, Scene, Source};
use osc_base::{Path, Text};
use run_clauses::Entries;

/// The numbers of a run that is within the limits of its scene.
#[derive(Drop)]
pub struct Numbers<'a> {
    pub(crate) scene: &'a Scene,
    pub(crate) run: &'a Entries<'a>,
    ghost within: { IsWithin (seen_scene scene.now) (seen_run run.now) },
}

impl<'a> Numbers<'a> {
    ghost use Rattle.std.specs.Prelude.{◌≡◌, ◌≤◌, ◌*◌, pos, option_map, option_and_then, position, bytes_eq};
    ghost use Rattle.field_flatten.specs.composition.Numbers.{number_at, number_of, thousandths, text_number};
    ghost use Rattle.field_flatten.specs.composition.SeenScenes.{seen_scene};
    ghost use Rattle.field_flatten.specs.composition.RunParts.{span_in, held_in};
    ghost use Rattle.run_clauses.specs.run_entries.SeenRuns.{seen_run};
    ghost use Rattle.run_values.specs.Frames.{IsWithin};
    ghost use Rattle.run_values.specs.SeenNumbers.{scene_in, run_in};

    /// The numbers of a run.
    pub fn of(scene: &'a Scene, run: &'a Entries<'a>) -> Numbers<'a>
        requires { IsWithin (seen_scene scene.now) (seen_run run.now) }
        ensures scene { scene_in result ≡ seen_scene scene.now }
        ensures run { run_in result ≡ seen_run run.now }
    {
        Numbers { scene, run }
    }

    /// The scene.
    pub fn scene(&self) -> &Scene
        ensures { seen_scene result.now ≡ scene_in self.now }
    {
        self.scene
    }

    /// The run.
    pub fn run(&self) -> &Entries<'a>
        ensures { seen_run result.now ≡ run_in self.now }
    {
        self.run
    }

    /// The number that the run holds at a path: the value of the field there, or a duration in thousandths of a second.
    pub fn number(&self, path: &Path) -> Option<i64>
        ensures { result ≡ number_at (scene_in self.now) (run_in self.now) path.now }
    {
        match self.scene.source(path) {
            Source::Run => Some(self.length()),
            Source::Phase(phase) => self.length_of(phase),
            Source::Value => self.held_number(path),
        }
    }

    /// How long the run is.
    fn length(&self) -> i64
        ensures { result ≡ thousandths (run_in self.now).tick (pos 0) (pos (run_in self.now).end) }
    {
        over_ticks(self.run.tick(), 0, self.run.end())
    }

    /// How long the phase is.
    fn length_of(&self, phase: &Path) -> Option<i64>
        ensures { result ≡ option_map (λ s. thousandths (run_in self.now).tick (pos s.start) (pos s.end)) (span_in (run_in self.now) phase.now) }
    {
        match self.run.span(phase) {
            Some(span) => Some(over_ticks(self.run.tick(), span.start, span.end)),
            None => None,
        }
    }

    /// The number that stands for what the field holds.
    fn held_number(&self, path: &Path) -> Option<i64>
        ensures { result ≡ option_and_then (number_of (scene_in self.now).texts) (held_in (run_in self.now) path.now) }
    {
        match self.run.held(path) {
            Some(Held::Number(number)) => Some(*number),
            Some(Held::Chars(text)) => number_of_text(self.scene, text),
            None => None,
        }
    }
}

impl Reading for Numbers<'_> {
    ghost use Rattle.field_flatten.specs.composition.Numbers.{number_at};
    ghost use Rattle.run_values.specs.SeenNumbers.{scene_in, run_in};

    ghost told = { λ s. number_at (scene_in s) (run_in s) };

    fn held(&self, path: &Path) -> Option<i64> {
        self.number(path)
    }
}

/// The number of the text, which is its place among the texts.
fn number_of_text(scene: &Scene, text: &Text) -> Option<i64>
    requires { length (seen_scene scene.now).texts ≤ 1000000000 }
    ensures { result ≡ option_map pos (text_number (seen_scene scene.now).texts text.now) }
{
    scene.text_place(text).map(|place| place as i64)
}

/// How long it is from one tick to another, in thousandths of a second.
fn over_ticks(tick: u32, start: u32, end: u32) -> i64
    requires ordered { start ≤ end }
    requires small { tick * end ≤ duration_reach }
    ensures { result ≡ thousandths tick (pos start) (pos end) }
{
    i64::from(tick) * (i64::from(end) - i64::from(start))
}
