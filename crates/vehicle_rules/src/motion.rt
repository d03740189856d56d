//! The rules of motion.

ghost use Rattle.std.specs.Prelude.{◌≡◌, ◌<◌, ◌≤◌, ◌^◌, ◌++◌, ◌+◌, ◌∷◌, [], pos, map, IfOk, OnOk};
ghost use Rattle.osc_base.specs.Paths.{then_name as with_name};
ghost use Rattle.osc_base.specs.declared.listing.SlotName.{SlotName};
ghost use Rattle.box_eval.specs.FlatRules as Flat;
ghost use Rattle.box_eval.specs.FlatRules.{flat_rule, flat_term, under as under_row, times as so_often};
ghost use Rattle.rule_parts.specs.composition.Slots.{ticks_of};
ghost use Rattle.rule_parts.specs.composition.Scenes.{guards as conditions_of};
ghost use Rattle.rule_parts.specs.field_flatten.Rules.{motion_rule as rule_of, motion_parts as parts_of, step_rules as rules_of_step, presence_rules, sample_slots, one_more};
ghost use Rattle.vehicle_rules.specs.Limits.{end_by, limits_by, limits_of, steps_by};
ghost use Rattle.rule_parts.specs.scene_slots.SeenSlots.{layout_of, scene_of};

use crate::modifiers::slots_at;
use box_eval::{Rule, Term};
use osc_base::{Boxed, Path, Row, SampleSlots, Step, Text};
use rule_parts::{SceneSlots, at_most, each_under, guard_row, rows, terms, under, with_row};
use std::alloc::{AllocError, Global};

/// The slots of a vehicle's greatest speed and of its greatest acceleration.
#[derive(Clone, Copy)]
pub(crate) struct Limits {
    pub speed: u32,
    pub acceleration: u32,
}

/// The path with a name after it.
fn then_name(alloc: Global, path: &Path, name: &str) -> Result<Path, AllocError>
    ensures { IfOk result (λ p. p ≡ with_name path.now name.now) }
{
    let mut longer = path.copy(alloc)?;
    longer.steps.push(Step::Name(Text::copy(alloc, name)?))?;
    Ok(longer)
}

/// The limits that stand at these paths.
fn limits_at(slots: &SceneSlots<'_>, speed: &Path, acceleration: &Path) -> Limits
    ensures { result ≡ limits_by (layout_of slots.now) speed.now acceleration.now }
{
    Limits {
        speed: slots.value(speed),
        acceleration: slots.value(acceleration),
    }
}

/// The limits of a vehicle.
fn own_limits(alloc: Global, slots: &SceneSlots<'_>, vehicle: &Path) -> Result<Limits, AllocError>
    ensures { IfOk result (λ l. l ≡ limits_of (layout_of slots.now) vehicle.now) }
{
    let speed = then_name(alloc, vehicle, "max_speed")?;
    let acceleration = then_name(alloc, vehicle, "max_acceleration")?;
    let found = limits_at(slots, &speed, &acceleration);
    Ok(found)
}

/// What is in a slot, or 0 without one.
fn end_term(end: Option<u32>) -> Term
    ensures { flat_term result ≡ end_by end }
{
    match end {
        Some(end) => Term::Slot(end),
        None => Term::Whole(0),
    }
}

/// The end of the run: that of the scenario's `do`, or 0 without one.
fn run_end(slots: &SceneSlots<'_>) -> Term
    ensures { flat_term result ≡ (layout_of slots.now).end }
{
    end_term(slots.whole_end())
}

/// One more than what is in a slot.
fn one_more_than(alloc: Global, slot: u32) -> Result<Term, AllocError>
    ensures { IfOk result (λ t. flat_term t ≡ one_more (Flat.Slot slot)) }
{
    let slot = Boxed::new(alloc, Term::Slot(slot))?;
    Ok(Term::Sum(slot, Boxed::new(alloc, Term::Whole(1))?))
}

/// A lane is at most the one next to the left of another.
fn lane_rule(alloc: Global, lane: u32, other: u32) -> Result<Rule, AllocError>
    ensures { IfOk result (λ r. flat_rule r ≡ Flat.AtMost (Flat.Slot lane) (one_more (Flat.Slot other))) }
{
    Ok(Rule::AtMost(Term::Slot(lane), one_more_than(alloc, other)?))
}

/// A position after a tick, at a speed.
fn moved(alloc: Global, position: u32, tick: u32, speed: u32) -> Result<Term, AllocError>
    ensures { IfOk result (λ t. flat_term t ≡ Flat.Sum (Flat.Slot position) (so_often tick (Flat.Slot speed))) }
{
    let way = terms::times(alloc, u128::from(tick), Term::Slot(speed))?;
    let position = Boxed::new(alloc, Term::Slot(position))?;
    Ok(Term::Sum(position, Boxed::new(alloc, way)?))
}

/// The next position is the one after a tick at the speed of now.
fn position_rule(
    alloc: Global,
    tick: u32,
    now: SampleSlots,
    next: SampleSlots,
) -> Result<Rule, AllocError>
    ensures { IfOk result (λ r. flat_rule r ≡ Flat.Equal (Flat.Slot next.position) (Flat.Sum (Flat.Slot now.position) (so_often tick (Flat.Slot now.speed)))) }
{
    let position = moved(alloc, now.position, tick, now.speed)?;
    Ok(Rule::Equal(Term::Slot(next.position), position))
}

/// One speed is at most so much greater than another as the acceleration allows within a tick.
fn speed_rule(
    alloc: Global,
    tick: u32,
    speed: u32,
    other: u32,
    acceleration: u32,
) -> Result<Rule, AllocError>
    ensures { IfOk result (λ r. flat_rule r ≡ Flat.AtMost (so_often 1000 (Flat.Less (Flat.Slot speed) (Flat.Slot other))) (so_often tick (Flat.Slot acceleration))) }
{
    let apart = terms::less(alloc, Term::Slot(speed), Term::Slot(other))?;
    let apart = terms::times(alloc, 1000, apart)?;
    let most = terms::times(alloc, u128::from(tick), Term::Slot(acceleration))?;
    Ok(Rule::AtMost(apart, most))
}

/// A row, and the rules that a lane changes to the next one at most.
fn with_lanes(
    alloc: Global,
    row: Vec<Rule>,
    now: SampleSlots,
    next: SampleSlots,
) -> Result<Vec<Rule>, AllocError>
    ensures { IfOk result (λ rs. map flat_rule rs.items ≡ map flat_rule row.items ++ Flat.AtMost (Flat.Slot next.lane) (one_more (Flat.Slot now.lane)) ∷ Flat.AtMost (Flat.Slot now.lane) (one_more (Flat.Slot next.lane)) ∷ []) }
{
    let row = rows::with_rule(row, lane_rule(alloc, next.lane, now.lane)?)?;
    rows::with_rule(row, lane_rule(alloc, now.lane, next.lane)?)
}

/// A row, and the rules that a speed changes by no more than the acceleration allows.
fn with_speeds(
    alloc: Global,
    row: Vec<Rule>,
    tick: u32,
    now: SampleSlots,
    next: SampleSlots,
    acceleration: u32,
) -> Result<Vec<Rule>, AllocError>
    ensures { IfOk result (λ rs. map flat_rule rs.items ≡ map flat_rule row.items ++ Flat.AtMost (so_often 1000 (Flat.Less (Flat.Slot next.speed) (Flat.Slot now.speed))) (so_often tick (Flat.Slot acceleration)) ∷ Flat.AtMost (so_often 1000 (Flat.Less (Flat.Slot now.speed) (Flat.Slot next.speed))) (so_often tick (Flat.Slot acceleration)) ∷ []) }
{
    let faster = speed_rule(alloc, tick, next.speed, now.speed, acceleration)?;
    let row = rows::with_rule(row, faster)?;
    let slower = speed_rule(alloc, tick, now.speed, next.speed, acceleration)?;
    rows::with_rule(row, slower)
}

/// The step of a vehicle from one sample to the next.
fn step_rules(
    alloc: Global,
    tick: u32,
    now: SampleSlots,
    next: SampleSlots,
    acceleration: u32,
) -> Result<Vec<Rule>, AllocError>
    ensures { IfOk result (λ rs. map flat_rule rs.items ≡ steps_by tick now next acceleration) }
{
    let position = position_rule(alloc, tick, now, next)?;
    let row = rows::with_rule(Vec::new(alloc), position)?;
    let row = with_lanes(alloc, row, now, next)?;
    with_speeds(alloc, row, tick, now, next, acceleration)
}

/// The vehicle is there, and the run hasn't ended before the tick.
fn lasting_row(
    alloc: Global,
    slots: &SceneSlots<'_>,
    vehicle: &Path,
    tick: u32,
) -> Result<Vec<Rule>, AllocError>
    ensures { IfOk result (λ rs. map flat_rule rs.items ≡ presence_rules (layout_of slots.now) (conditions_of (scene_of slots.now) vehicle.now) ++ Flat.AtMost (Flat.Whole (pos tick)) (layout_of slots.now).end ∷ []) }
{
    let row = guard_row(alloc, slots, slots.scene().guards(vehicle))?;
    let lasts = Rule::AtMost(Term::Whole(i128::from(tick)), run_end(slots));
    rows::with_rule(row, lasts)
}

/// The vehicle is there, and the run ends after the tick.
fn stepping_row(
    alloc: Global,
    slots: &SceneSlots<'_>,
    vehicle: &Path,
    tick: u32,
) -> Result<Vec<Rule>, AllocError>
    ensures { IfOk result (λ rs. map flat_rule rs.items ≡ presence_rules (layout_of slots.now) (conditions_of (scene_of slots.now) vehicle.now) ++ Flat.Below (Flat.Whole (pos tick)) (layout_of slots.now).end ∷ []) }
{
    let row = guard_row(alloc, slots, slots.scene().guards(vehicle))?;
    let goes_on = Rule::Below(Term::Whole(i128::from(tick)), run_end(slots));
    rows::with_rule(row, goes_on)
}

/// The vehicle is no faster than it may, up to the run's end.
fn limit_rule(
    alloc: Global,
    slots: &SceneSlots<'_>,
    vehicle: &Path,
    limits: Limits,
    tick: u32,
) -> Result<Rule, AllocError>
    requires { tick ≤ (scene_of slots.now).setting.ticks }
    ensures { IfOk result (λ r. flat_rule r ≡ under_row (presence_rules (layout_of slots.now) (conditions_of (scene_of slots.now) vehicle.now) ++ Flat.AtMost (Flat.Whole (pos tick)) (layout_of slots.now).end ∷ []) (Flat.AtMost (Flat.Slot (sample_slots (layout_of slots.now) vehicle.now tick).speed) (Flat.Slot limits.speed))) }
{
    let row = lasting_row(alloc, slots, vehicle, tick)?;
    let now = slots_at(slots, vehicle, tick);
    under(alloc, row, at_most(now.speed, limits.speed))
}

/// The parts of the step of a vehicle from a tick to the next, before the run's end.
fn step_parts(
    alloc: Global,
    slots: &SceneSlots<'_>,
    vehicle: &Path,
    limits: Limits,
    tick: u32,
) -> Result<Vec<Rule>, AllocError>
    requires few { (scene_of slots.now).setting.ticks ≤ 600 }
    requires tick { tick < (scene_of slots.now).setting.ticks }
    ensures { IfOk result (λ rs. map flat_rule rs.items ≡ map (under_row (presence_rules (layout_of slots.now) (conditions_of (scene_of slots.now) vehicle.now) ++ Flat.Below (Flat.Whole (pos tick)) (layout_of slots.now).end ∷ [])) (steps_by (layout_of slots.now).tick (sample_slots (layout_of slots.now) vehicle.now tick) (sample_slots (layout_of slots.now) vehicle.now (tick + 1)) limits.acceleration)) }
{
    let row = stepping_row(alloc, slots, vehicle, tick)?;
    let now = slots_at(slots, vehicle, tick);
    let next = slots_at(slots, vehicle, tick + 1);
    let length = slots.scene().setting().tick;
    let steps = step_rules(alloc, length, now, next, limits.acceleration)?;
    each_under(alloc, row.as_slice(), steps)
}

/// The parts of motion at a tick.
fn motion_parts(
    alloc: Global,
    slots: &SceneSlots<'_>,
    vehicle: &Path,
    limits: Limits,
    tick: u32,
) -> Result<Vec<Rule>, AllocError>
    requires few { (scene_of slots.now).setting.ticks ≤ 600 }
    requires tick { tick ≤ (scene_of slots.now).setting.ticks }
    requires limits { limits ≡ limits_of (layout_of slots.now) vehicle.now }
    ensures { IfOk result (λ rs. map flat_rule rs.items ≡ parts_of (scene_of slots.now) (layout_of slots.now) vehicle.now tick) }
{
    let limit = limit_rule(alloc, slots, vehicle, limits, tick)?;
    let row = rows::with_rule(Vec::new(alloc), limit)?;
    if tick < slots.scene().setting().ticks {
        with_row(row, step_parts(alloc, slots, vehicle, limits, tick)?)
    } else {
        Ok(row)
    }
}

/// A vehicle moves as it may at a tick.
fn motion_rule(
    alloc: Global,
    slots: &SceneSlots<'_>,
    vehicle: &Path,
    limits: Limits,
    tick: u32,
) -> Result<Rule, AllocError>
    requires few { (scene_of slots.now).setting.ticks ≤ 600 }
    requires tick { tick ≤ (scene_of slots.now).setting.ticks }
    requires limits { limits ≡ limits_of (layout_of slots.now) vehicle.now }
    ensures { IfOk result (λ r. flat_rule r ≡ rule_of (scene_of slots.now) (layout_of slots.now) vehicle.now tick) }
{
    let parts = motion_parts(alloc, slots, vehicle, limits, tick)?;
    rows::all(alloc, parts)
}

/// Puts the rules of a vehicle's motion at each tick at the end.
pub fn motion_rules(
    alloc: Global,
    slots: &SceneSlots<'_>,
    vehicle: &Path,
    rules: &mut Row<Rule>,
) -> Result<(), AllocError>
    requires { (scene_of slots.now).setting.ticks ≤ 600 }
    ensures { OnOk result (map flat_rule rules.new ≡ map flat_rule rules.old ++ map (rule_of (scene_of slots.now) (layout_of slots.now) vehicle.now) (ticks_of (scene_of slots.now).setting)) }
{
    let limits = own_limits(alloc, slots, vehicle)?;
    let count = slots.scene().setting().ticks + 1;
    'ticks: for tick in 0..count {
        rules.push(motion_rule(alloc, slots, vehicle, limits, tick)?)?;
    }
    Ok(())
}
