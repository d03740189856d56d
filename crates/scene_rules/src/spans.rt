//! Rows of rules on the ticks at which phases start and end.

ghost use Rattle.std.specs.Prelude.{◌≡◌, ◌++◌, ◌∷◌, [], map, IfOk};
ghost use Rattle.box_eval.specs.FlatRules as Flat;
ghost use Rattle.box_eval.specs.FlatRules.{flat_rule};
ghost use Rattle.rule_parts.specs.field_flatten.Rules.{least_rules as rules_of_least, greatest_rules as rules_of_greatest, together_rules as rules_of_together, overlap_rules as rules_of_overlap, starts, ends};
ghost use Rattle.scene_rules.specs.Sides.{side_term, side_terms};
ghost use Rattle.rule_parts.specs.scene_slots.SeenSlots.{layout_of};

use box_eval::Rule;
use osc_base::Path;
use rule_parts::{SceneSlots, at_most, equal, rows, with_row};
use std::alloc::{AllocError, Global};

/// Where a phase starts, or where it ends.
#[derive(Clone, Copy)]
pub(crate) enum Side {
    Start,
    End,
}

/// The slot of a tick of a phase.
pub(crate) fn slot_of(slots: &SceneSlots<'_>, side: Side, phase: &Path) -> u32
    ensures { Flat.Slot result ≡ side_term (layout_of slots.now) side phase.now }
{
    match side {
        Side::Start => slots.start(phase),
        Side::End => slots.end(phase),
    }
}

/// The slots of that tick of phases.
fn slots_of(
    alloc: Global,
    slots: &SceneSlots<'_>,
    side: Side,
    phases: &[Path],
) -> Result<Vec<u32>, AllocError>
    ensures { IfOk result (λ ts. map Flat.Slot ts.items ≡ side_terms (layout_of slots.now) side phases.now) }
{
    let mut ticks = Vec::new(alloc);
    'phases: for phase in phases {
        ticks.push(slot_of(slots, side, phase))?;
    }
    Ok(ticks)
}

/// Each tick of a row equals the tick in a slot.
fn equal_to(alloc: Global, tick: u32, ticks: &[u32]) -> Result<Vec<Rule>, AllocError>
    ensures { IfOk result (λ rs. map flat_rule rs.items ≡ map (λ t. Flat.Equal t (Flat.Slot tick)) (map Flat.Slot ticks.now)) }
{
    let mut row = Vec::new(alloc);
    'ticks: for other in ticks {
        row.push(equal(*other, tick))?;
    }
    Ok(row)
}

/// A tick is at most each of a row.
fn at_most_each(alloc: Global, tick: u32, ticks: &[u32]) -> Result<Vec<Rule>, AllocError>
    ensures { IfOk result (λ rs. map flat_rule rs.items ≡ map (λ t. Flat.AtMost (Flat.Slot tick) t) (map Flat.Slot ticks.now)) }
{
    let mut row = Vec::new(alloc);
    'ticks: for other in ticks {
        row.push(at_most(tick, *other))?;
    }
    Ok(row)
}

/// Each of a row is at most a tick.
fn each_at_most(alloc: Global, ticks: &[u32], tick: u32) -> Result<Vec<Rule>, AllocError>
    ensures { IfOk result (λ rs. map flat_rule rs.items ≡ map (λ t. Flat.AtMost t (Flat.Slot tick)) (map Flat.Slot ticks.now)) }
{
    let mut row = Vec::new(alloc);
    'ticks: for other in ticks {
        row.push(at_most(*other, tick))?;
    }
    Ok(row)
}

/// A row, and the rule that the tick in a slot is one of these.
fn with_one_of(
    alloc: Global,
    row: Vec<Rule>,
    tick: u32,
    ticks: &[u32],
) -> Result<Vec<Rule>, AllocError>
    ensures { IfOk result (λ rs. map flat_rule rs.items ≡ map flat_rule row.items ++ Flat.any_of (map (λ t. Flat.Equal t (Flat.Slot tick)) (map Flat.Slot ticks.now)) ∷ []) }
{
    let one = rows::any(alloc, equal_to(alloc, tick, ticks)?)?;
    rows::with_rule(row, one)
}

/// The tick in a slot is the least of a row.
fn least_rules(alloc: Global, tick: u32, ticks: &[u32]) -> Result<Vec<Rule>, AllocError>
    ensures { IfOk result (λ rs. map flat_rule rs.items ≡ rules_of_least (Flat.Slot tick) (map Flat.Slot ticks.now)) }
{
    let row = at_most_each(alloc, tick, ticks)?;
    with_one_of(alloc, row, tick, ticks)
}

/// The tick in a slot is the greatest of a row.
fn greatest_rules(alloc: Global, tick: u32, ticks: &[u32]) -> Result<Vec<Rule>, AllocError>
    ensures { IfOk result (λ rs. map flat_rule rs.items ≡ rules_of_greatest (Flat.Slot tick) (map Flat.Slot ticks.now)) }
{
    let row = each_at_most(alloc, ticks, tick)?;
    with_one_of(alloc, row, tick, ticks)
}

/// There are ticks in a row, and each is the tick in a slot.
fn together_rules(alloc: Global, tick: u32, ticks: &[u32]) -> Result<Vec<Rule>, AllocError>
    ensures { IfOk result (λ rs. map flat_rule rs.items ≡ rules_of_together (Flat.Slot tick) (map Flat.Slot ticks.now)) }
{
    match ticks {
        [_first, _others @ ..] => equal_to(alloc, tick, ticks),
        [] => with_one_of(alloc, Vec::new(alloc), tick, ticks),
    }
}

/// Each tick of one row is at most each of the other.
fn overlap_rules(alloc: Global, starts: &[u32], ends: &[u32]) -> Result<Vec<Rule>, AllocError>
    ensures { IfOk result (λ rs. map flat_rule rs.items ≡ rules_of_overlap (map Flat.Slot starts.now) (map Flat.Slot ends.now)) }
{
    let mut row = Vec::new(alloc);
    'starts: for start in starts {
        row = with_row(row, at_most_each(alloc, *start, ends)?)?;
    }
    Ok(row)
}

/// A tick is that at which the first of these phases starts.
pub(crate) fn first_start(
    alloc: Global,
    slots: &SceneSlots<'_>,
    tick: u32,
    phases: &[Path],
) -> Result<Vec<Rule>, AllocError>
    ensures { IfOk result (λ rs. map flat_rule rs.items ≡ rules_of_least (Flat.Slot tick) (starts (layout_of slots.now) phases.now)) }
{
    let ticks = slots_of(alloc, slots, Side::Start, phases)?;
    least_rules(alloc, tick, ticks.as_slice())
}

/// A tick is that at which the last of these phases ends.
pub(crate) fn last_end(
    alloc: Global,
    slots: &SceneSlots<'_>,
    tick: u32,
    phases: &[Path],
) -> Result<Vec<Rule>, AllocError>
    ensures { IfOk result (λ rs. map flat_rule rs.items ≡ rules_of_greatest (Flat.Slot tick) (ends (layout_of slots.now) phases.now)) }
{
    let ticks = slots_of(alloc, slots, Side::End, phases)?;
    greatest_rules(alloc, tick, ticks.as_slice())
}

/// A tick is that at which each of these phases starts.
pub(crate) fn each_start(
    alloc: Global,
    slots: &SceneSlots<'_>,
    tick: u32,
    phases: &[Path],
) -> Result<Vec<Rule>, AllocError>
    ensures { IfOk result (λ rs. map flat_rule rs.items ≡ rules_of_together (Flat.Slot tick) (starts (layout_of slots.now) phases.now)) }
{
    let ticks = slots_of(alloc, slots, Side::Start, phases)?;
    together_rules(alloc, tick, ticks.as_slice())
}

/// A tick is that at which each of these phases ends.
pub(crate) fn each_end(
    alloc: Global,
    slots: &SceneSlots<'_>,
    tick: u32,
    phases: &[Path],
) -> Result<Vec<Rule>, AllocError>
    ensures { IfOk result (λ rs. map flat_rule rs.items ≡ rules_of_together (Flat.Slot tick) (ends (layout_of slots.now) phases.now)) }
{
    let ticks = slots_of(alloc, slots, Side::End, phases)?;
    together_rules(alloc, tick, ticks.as_slice())
}

/// Each of these phases starts before each ends, or when it does.
pub(crate) fn shared_tick(
    alloc: Global,
    slots: &SceneSlots<'_>,
    phases: &[Path],
) -> Result<Vec<Rule>, AllocError>
    ensures { IfOk result (λ rs. map flat_rule rs.items ≡ rules_of_overlap (starts (layout_of slots.now) phases.now) (ends (layout_of slots.now) phases.now)) }
{
    let starts = slots_of(alloc, slots, Side::Start, phases)?;
    let ends = slots_of(alloc, slots, Side::End, phases)?;
    overlap_rules(alloc, starts.as_slice(), ends.as_slice())
}
