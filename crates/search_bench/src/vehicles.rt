//! A flat form of two vehicles over 100 ticks, of which each has a lane, a position and a speed at each tick.
ghost use Rattle.std.specs.Prelude.{◌<◌};

use box_eval::{Bounds, Flat, Pair, Rule, Term};
use osc_base::{Boxed, Row};
use std::alloc::{AllocError, Global};

/// The number of ticks.
const TICKS: u32 = 100;

/// What is known of a vehicle at a tick.
#[derive(Clone, Copy)]
enum Part {
    Lane,
    /// In millimetres.
    Position,
    /// In millimetres a tick.
    Speed,
}

/// What is known of a vehicle at a tick, as a term.
fn at(vehicle: u32, tick: u32, part: Part) -> Term
    requires vehicle { vehicle < 2 }
    requires tick { tick < 100 }
{
    let place = match part {
        Part::Lane => 0,
        Part::Position => 1,
        Part::Speed => 2,
    };
    Term::Slot((vehicle * TICKS + tick) * 3 + place)
}

/// A term and a number together.
fn plus(alloc: Global, a: Term, number: i128) -> Result<Term, AllocError> {
    sum(alloc, a, Term::Whole(number))
}

fn sum(alloc: Global, a: Term, b: Term) -> Result<Term, AllocError> {
    Ok(Term::Sum(Boxed::new(alloc, a)?, Boxed::new(alloc, b)?))
}

/// One term is at most so much above another.
fn near(alloc: Global, a: Term, b: Term, most: i128) -> Result<Rule, AllocError> {
    let difference = Term::Less(Boxed::new(alloc, a)?, Boxed::new(alloc, b)?);
    Ok(Rule::AtMost(difference, Term::Whole(most)))
}

fn either(alloc: Global, a: Rule, b: Rule) -> Result<Rule, AllocError> {
    Ok(Rule::Either(Boxed::new(alloc, a)?, Boxed::new(alloc, b)?))
}

/// The speed of a vehicle at a tick has its limits.
fn moderate(alloc: Global, vehicle: u32, tick: u32) -> Result<Rule, AllocError>
    requires vehicle { vehicle < 2 }
    requires tick { tick < 100 }
{
    let least = Rule::AtMost(Term::Whole(1000), at(vehicle, tick, Part::Speed));
    let most = Rule::AtMost(at(vehicle, tick, Part::Speed), Term::Whole(4000));
    Ok(Rule::Both(Boxed::new(alloc, least)?, Boxed::new(alloc, most)?))
}

/// From a tick to the next a vehicle moves by its speed.
fn moves(alloc: Global, vehicle: u32, tick: u32) -> Result<Rule, AllocError>
    requires vehicle { vehicle < 2 }
    requires tick { tick < 99 }
{
    let position = at(vehicle, tick, Part::Position);
    let moved = sum(alloc, position, at(vehicle, tick, Part::Speed))?;
    Ok(Rule::Equal(at(vehicle, tick + 1, Part::Position), moved))
}

/// From a tick to the next, a part of a vehicle rises by at most so much.
fn rises(alloc: Global, vehicle: u32, tick: u32, part: Part, most: i128) -> Result<Rule, AllocError>
    requires vehicle { vehicle < 2 }
    requires tick { tick < 99 }
{
    near(
        alloc,
        at(vehicle, tick + 1, part),
        at(vehicle, tick, part),
        most,
    )
}

/// From a tick to the next, a part of a vehicle falls by at most so much.
fn falls(alloc: Global, vehicle: u32, tick: u32, part: Part, most: i128) -> Result<Rule, AllocError>
    requires vehicle { vehicle < 2 }
    requires tick { tick < 99 }
{
    near(
        alloc,
        at(vehicle, tick, part),
        at(vehicle, tick + 1, part),
        most,
    )
}

/// What the speed of a vehicle and its lane do from a tick to the next.
fn push_step(
    alloc: Global,
    rules: &mut Row<Rule>,
    vehicle: u32,
    tick: u32,
) -> Result<(), AllocError>
    requires vehicle { vehicle < 2 }
    requires tick { tick < 99 }
{
    rules.push(moves(alloc, vehicle, tick)?)?;
    rules.push(rises(alloc, vehicle, tick, Part::Speed, 30)?)?;
    rules.push(falls(alloc, vehicle, tick, Part::Speed, 80)?)?;
    rules.push(rises(alloc, vehicle, tick, Part::Lane, 1)?)?;
    rules.push(falls(alloc, vehicle, tick, Part::Lane, 1)?)
}

/// At a tick the position of one vehicle is so far below that of another.
fn is_after(
    alloc: Global,
    vehicle: u32,
    other: u32,
    tick: u32,
    least: i128,
) -> Result<Rule, AllocError>
    requires vehicle { vehicle < 2 }
    requires other { other < 2 }
    requires tick { tick < 100 }
{
    let position = plus(alloc, at(vehicle, tick, Part::Position), least)?;
    Ok(Rule::AtMost(position, at(other, tick, Part::Position)))
}

/// At a tick the vehicles are in two lanes, or 5 m apart.
fn apart(alloc: Global, tick: u32) -> Result<Rule, AllocError>
    requires { tick < 100 }
{
    let first = is_after(alloc, 0, 1, tick, 5000)?;
    let second = is_after(alloc, 1, 0, tick, 5000)?;
    let lanes = Rule::Differ(at(0, tick, Part::Lane), at(1, tick, Part::Lane));
    either(alloc, lanes, either(alloc, first, second)?)
}

/// At a tick the vehicles are in one lane.
fn in_one_lane(tick: u32) -> Rule
    requires { tick < 100 }
{
    Rule::Equal(at(0, tick, Part::Lane), at(1, tick, Part::Lane))
}

/// At the first tick the first vehicle is 20 m after the second.
fn starts(alloc: Global) -> Result<Rule, AllocError> {
    let start = plus(alloc, at(0, 0, Part::Position), 20_000)?;
    Ok(Rule::Equal(start, at(1, 0, Part::Position)))
}

/// At the last tick the first vehicle is 20 m before the second.
fn ends_ahead(alloc: Global) -> Result<Rule, AllocError> {
    let end = plus(alloc, at(1, TICKS - 1, Part::Position), 20_000)?;
    Ok(Rule::Equal(at(0, TICKS - 1, Part::Position), end))
}

/// The first vehicle starts in the lane of the second and after it, and ends in its lane and before it.
fn push_task(alloc: Global, rules: &mut Row<Rule>) -> Result<(), AllocError> {
    rules.push(in_one_lane(0))?;
    rules.push(starts(alloc)?)?;
    rules.push(in_one_lane(TICKS - 1))?;
    rules.push(ends_ahead(alloc)?)
}

/// The ends of all slots.
fn ends(alloc: Global) -> Result<Bounds, AllocError> {
    let mut pairs = Row::new(alloc);
    for _ in 0..2 * TICKS {
        for high in [2, 1_000_000, 5000] {
            pairs.push(Pair { low: 0, high })?;
        }
    }
    Ok(Bounds { pairs })
}

/// The rules of one vehicle.
fn push_vehicle(alloc: Global, rules: &mut Row<Rule>, vehicle: u32) -> Result<(), AllocError>
    requires { vehicle < 2 }
{
    for tick in 0..TICKS {
        rules.push(moderate(alloc, vehicle, tick)?)?;
    }
    for tick in 0..TICKS - 1 {
        push_step(alloc, rules, vehicle, tick)?;
    }
    Ok(())
}

/// The rules of both vehicles.
fn push_both(alloc: Global, rules: &mut Row<Rule>) -> Result<(), AllocError> {
    for tick in 0..TICKS {
        rules.push(apart(alloc, tick)?)?;
    }
    push_task(alloc, rules)
}

/// Two vehicles of which the first overtakes the second.
pub(crate) fn two_vehicles(alloc: Global) -> Result<Flat, AllocError> {
    let bounds = ends(alloc)?;
    let mut rules = Row::new(alloc);
    push_vehicle(alloc, &mut rules, 0)?;
    push_vehicle(alloc, &mut rules, 1)?;
    push_both(alloc, &mut rules)?;
    Ok(Flat { bounds, rules })
}
