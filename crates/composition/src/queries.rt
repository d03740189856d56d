//! What a scene tells.

ghost use Rattle.std.specs.Prelude.{◌≡◌, find, map, option_copied, IfOk, None, Some};
ghost use Rattle.expr_nodes.specs.osc_base.Paths.{same_path};
ghost use Rattle.composition.specs.Numbers.{text_number};
ghost use Rattle.composition.specs.SeenParts.{scene_of, seen_occurrence, seen_modifier, seen_spot};
ghost use Rattle.composition.specs.SeenScenes.{seen_scene};
ghost use Rattle.composition.specs.SeenSources.{first_read, is_root_timed, seen_source};
ghost use Rattle.composition.specs.Scenes.{choices as all_choices, values as all_values, phases as all_phases, vehicles as all_vehicles, guards as all_guards, source as source_at};

use crate::lists::{ListIndexes, PartIndexes, SpotLists};
use crate::part::{Binding, ModifierSpot, Occurrence, Spot};
use crate::scene::Scene;
use crate::source::Source;
use crate::{ChoiceSpot, Guard, PhaseSpot, Setting, ValueSpot};
use expr_nodes::{Path, Row, Text, TextTable};
use keep_rules::path_index::osc_base::Step;
use keep_rules::path_index::{found, found_timed};
use std::alloc::{AllocError, Global};

impl Scene {
    /// A scene of these parts. The spots stand in the order of expansion, at their homes.
    pub fn new(
        alloc: Global,
        spots: Row<Spot>,
        bindings: Row<Binding>,
        occurrences: Row<Occurrence>,
        modifiers: Row<ModifierSpot>,
        setting: Setting,
        texts: TextTable,
    ) -> Result<Scene, AllocError>
        ensures { IfOk result (λ s. seen_scene s ≡ scene_of spots bindings occurrences modifiers setting texts) }
    {
        let lists = SpotLists::of(alloc, spots.as_slice())?;
        let part_indexes = PartIndexes::of(alloc, spots.as_slice(), bindings.as_slice())?;
        let list_indexes = ListIndexes::of(alloc, &lists)?;
        Ok(Scene {
            spots,
            bindings,
            occurrences,
            modifiers,
            setting,
            texts,
            lists,
            part_indexes,
            list_indexes,
        })
    }

    /// The conditions under which what is read at the path is there, outermost first.
    pub fn guards(&self, path: &Path) -> &[Guard]
        ensures { result.now ≡ all_guards (seen_scene self.now) path.now }
    {
        match self.spot_read(path) {
            Some(spot) => spot.guards.as_slice(),
            None => &[],
        }
    }

    /// The first spot at the path, or the first whose duration is read there.
    fn spot_read(&self, path: &Path) -> Option<&Spot>
        ensures { option_copied result ≡ first_read self.now.spots path.now }
    {
        match found(&self.part_indexes.spots, self.spots.as_slice(), path) {
            Some(spot) => Some(spot),
            None => found_timed(&self.part_indexes.durations, self.spots.as_slice(), path),
        }
    }

    /// What is read at the path.
    pub fn source(&self, path: &Path) -> Source<'_>
        ensures { seen_source result ≡ source_at (seen_scene self.now) path.now }
    {
        if is_root_duration(path) {
            return Source::Run;
        }
        match found_timed(
            &self.list_indexes.phase_durations,
            self.lists.phases.as_slice(),
            path,
        ) {
            Some(phase) => Source::Phase(&phase.path),
            None => Source::Value,
        }
    }

    /// Each `one_of`.
    pub fn choices(&self) -> &[ChoiceSpot]
        ensures { result.now ≡ all_choices (seen_scene self.now) }
    {
        self.lists.choices.as_slice()
    }

    /// Each field that holds a value.
    pub fn values(&self) -> &[ValueSpot]
        ensures { result.now ≡ all_values (seen_scene self.now) }
    {
        self.lists.values.as_slice()
    }

    /// Each phase.
    pub fn phases(&self) -> &[PhaseSpot]
        ensures { result.now ≡ all_phases (seen_scene self.now) }
    {
        self.lists.phases.as_slice()
    }

    /// Each vehicle.
    pub fn vehicles(&self) -> &[Path]
        ensures { result.now ≡ all_vehicles (seen_scene self.now) }
    {
        self.lists.vehicles.as_slice()
    }

    /// The first `one_of` at the path.
    pub fn choice(&self, path: &Path) -> Option<&ChoiceSpot>
        ensures { option_copied result ≡ find (λ s. same_path s.path path.now) (all_choices (seen_scene self.now)) }
    {
        found(
            &self.list_indexes.choices,
            self.lists.choices.as_slice(),
            path,
        )
    }

    /// The first value at the path.
    pub fn value(&self, path: &Path) -> Option<&ValueSpot>
        ensures { option_copied result ≡ find (λ s. same_path s.path path.now) (all_values (seen_scene self.now)) }
    {
        found(
            &self.list_indexes.values,
            self.lists.values.as_slice(),
            path,
        )
    }

    /// The first phase at the path.
    pub fn phase(&self, path: &Path) -> Option<&PhaseSpot>
        ensures { option_copied result ≡ find (λ s. same_path s.path path.now) (all_phases (seen_scene self.now)) }
    {
        found(
            &self.list_indexes.phases,
            self.lists.phases.as_slice(),
            path,
        )
    }

    /// The constraints.
    pub fn occurrences(&self) -> &[Occurrence]
        ensures { map seen_occurrence result.now ≡ (seen_scene self.now).occurrences }
    {
        self.occurrences.as_slice()
    }

    /// The modifiers.
    pub fn modifiers(&self) -> &[ModifierSpot]
        ensures { map seen_modifier result.now ≡ (seen_scene self.now).modifiers }
    {
        self.modifiers.as_slice()
    }

    /// The setting that the scene is made for.
    pub fn setting(&self) -> Setting
        ensures { result ≡ (seen_scene self.now).setting }
    {
        self.setting
    }

    /// The texts that a field of type `string` may hold.
    pub fn texts(&self) -> &[Text]
        ensures { result.now ≡ (seen_scene self.now).texts }
    {
        self.texts.all()
    }

    /// The place of a text among the texts.
    pub fn text_place(&self, text: &Text) -> Option<usize>
        ensures { result ≡ text_number (seen_scene self.now).texts text.now }
    {
        self.texts.place(text.as_str())
    }
}

/// The duration of the whole run is read there.
fn is_root_duration(path: &Path) -> bool
    ensures { result ≡ is_root_timed path.now.steps }
{
    match path.steps.as_slice() {
        [Step::Name(name)] => name.as_str() == "duration",
        _ => false,
    }
}
