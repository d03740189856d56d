//! The ticks of phases.

ghost use Rattle.std.specs.Prelude.{◌≡◌, ◌++◌, flat_map, IfOk, OnOk};
ghost use Rattle.box_eval.specs.Box.{IsPointOf};
ghost use Rattle.scene_slots.specs.field_flatten.Ends.{bounds};
ghost use Rattle.scene_slots.specs.field_flatten.Points.{slot_value, span_of as span_by};
ghost use Rattle.scene_runs.specs.Entries.{span_entry};
ghost use Rattle.scene_slots.specs.SeenSlots.{scene_of};

use crate::conditions::stands;
use crate::numbers::{counted, number_in};
use osc_base::{Path, Row};
use scene_slots::{PhaseSpot, SceneSlots, Span};
use std::alloc::{AllocError, Global};

/// The ticks at which a phase starts and ends.
fn span_of(
    alloc: Global,
    slots: &SceneSlots<'_>,
    point: &[i64],
    phase: &Path,
) -> Result<Span, AllocError>
    requires { IsPointOf (bounds (scene_of slots.now)) point.now }
    ensures { IfOk result (λ s. s ≡ span_by (slot_value (scene_of slots.now) point.now) phase.now) }
{
    let ticks = slots.scene().setting().ticks;
    let start = counted(number_in(point, slots.start(phase)), ticks);
    let end = counted(number_in(point, slots.end(phase)), ticks);
    let path = phase.copy(alloc)?;
    Ok(Span { path, start, end })
}

/// Puts the ticks of a phase at the end, if the phase is there.
fn push_span(
    alloc: Global,
    slots: &SceneSlots<'_>,
    point: &[i64],
    phase: &PhaseSpot,
    spans: &mut Row<Span>,
) -> Result<(), AllocError>
    requires { IsPointOf (bounds (scene_of slots.now)) point.now }
    ensures { OnOk result (spans.new ≡ spans.old ++ span_entry (scene_of slots.now) (slot_value (scene_of slots.now) point.now) phase.now) }
{
    if stands(slots, point, &phase.path) {
        spans.push(span_of(alloc, slots, point, &phase.path)?)
    } else {
        Ok(())
    }
}

/// The ticks of those phases that are there.
pub(crate) fn spans_of(
    alloc: Global,
    slots: &SceneSlots<'_>,
    point: &[i64],
    phases: &[PhaseSpot],
) -> Result<Row<Span>, AllocError>
    requires { IsPointOf (bounds (scene_of slots.now)) point.now }
    ensures { IfOk result (λ ss. ss ≡ flat_map (span_entry (scene_of slots.now) (slot_value (scene_of slots.now) point.now)) phases.now) }
{
    let mut spans = Row::new(alloc);
    'phases: for phase in phases {
        push_span(alloc, slots, point, phase, &mut spans)?;
    }
    Ok(spans)
}
