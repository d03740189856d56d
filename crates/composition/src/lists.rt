//! The lists and indexes that a scene works out once.

ghost use Rattle.std.specs.Prelude.{◌≡◌, filter_map, IfOk};
ghost use Rattle.expr_nodes.specs.osc_base.Paths.{then_duration};
ghost use Rattle.keep_rules.specs.path_index.Places.{Places};
ghost use Rattle.composition.specs.SeenParts.{choice_at, value_at, phase_at, vehicle_at};

use crate::part::{Binding, Spot};
use crate::sorts::sorted;
use crate::{ChoiceSpot, PhaseSpot, ValueSpot};
use expr_nodes::{Path, Row};
use keep_rules::path_index::PathIndex;
use std::alloc::{AllocError, Global};

/// The spots of each sort, in the order of expansion.
#[derive(Drop)]
pub(crate) struct SpotLists {
    pub(crate) choices: Row<ChoiceSpot>,
    pub(crate) values: Row<ValueSpot>,
    pub(crate) phases: Row<PhaseSpot>,
    pub(crate) vehicles: Row<Path>,
}

impl SpotLists {
    /// The spots of each sort among all spots.
    pub(crate) fn of(alloc: Global, spots: &[Spot]) -> Result<SpotLists, AllocError>
        ensures choices { IfOk result (λ l. l.choices ≡ filter_map choice_at spots.now) }
        ensures values { IfOk result (λ l. l.values ≡ filter_map value_at spots.now) }
        ensures phases { IfOk result (λ l. l.phases ≡ filter_map phase_at spots.now) }
        ensures vehicles { IfOk result (λ l. l.vehicles ≡ filter_map vehicle_at spots.now) }
    {
        Ok(SpotLists {
            choices: sorted::<ChoiceSpot>(alloc, spots)?,
            values: sorted::<ValueSpot>(alloc, spots)?,
            phases: sorted::<PhaseSpot>(alloc, spots)?,
            vehicles: sorted::<Path>(alloc, spots)?,
        })
    }
}

/// Where each path stands among the spots and among the parameters.
#[derive(Drop)]
pub(crate) struct PartIndexes {
    pub(crate) spots: PathIndex,
    pub(crate) durations: PathIndex,
    pub(crate) bindings: PathIndex,
}

impl PartIndexes {
    /// The indexes of these spots and parameters.
    pub(crate) fn of(
        alloc: Global,
        spots: &[Spot],
        bindings: &[Binding],
    ) -> Result<PartIndexes, AllocError>
        ensures spots { IfOk result (λ i. Places i.spots (λ p. p) (λ s. s.path) spots.now) }
        ensures durations { IfOk result (λ i. Places i.durations then_duration (λ s. s.path) spots.now) }
        ensures bindings { IfOk result (λ i. Places i.bindings (λ p. p) (λ b. b.at) bindings.now) }
    {
        Ok(PartIndexes {
            spots: PathIndex::of(alloc, spots)?,
            durations: PathIndex::of_durations(alloc, spots)?,
            bindings: PathIndex::of(alloc, bindings)?,
        })
    }
}

/// Where each path stands in the lists of one sort.
#[derive(Drop)]
pub(crate) struct ListIndexes {
    pub(crate) choices: PathIndex,
    pub(crate) values: PathIndex,
    pub(crate) phases: PathIndex,
    pub(crate) phase_durations: PathIndex,
}

impl ListIndexes {
    /// The indexes of these lists.
    pub(crate) fn of(alloc: Global, lists: &SpotLists) -> Result<ListIndexes, AllocError>
        ensures choices { IfOk result (λ i. Places i.choices (λ p. p) (λ s. s.path) lists.now.choices) }
        ensures values { IfOk result (λ i. Places i.values (λ p. p) (λ s. s.path) lists.now.values) }
        ensures phases { IfOk result (λ i. Places i.phases (λ p. p) (λ s. s.path) lists.now.phases) }
        ensures phase_durations { IfOk result (λ i. Places i.phase_durations then_duration (λ s. s.path) lists.now.phases) }
    {
        Ok(ListIndexes {
            choices: PathIndex::of(alloc, lists.choices.as_slice())?,
            values: PathIndex::of(alloc, lists.values.as_slice())?,
            phases: PathIndex::of(alloc, lists.phases.as_slice())?,
            phase_durations: PathIndex::of_durations(alloc, lists.phases.as_slice())?,
        })
    }
}
