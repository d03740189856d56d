//! The spots of one sort.

ghost use Rattle.std.specs.Prelude.{◌≡◌, ◌++◌, Option, filter_map, length, option_to_list, IfOk, OnOk};
ghost use Rattle.composition.specs.SeenParts.{choice_at, value_at, phase_at, vehicle_at};
ghost use Rattle.composition.specs.declared.part.Spot.{Spot};

use crate::part::{Content, Spot};
use crate::{ChoiceSpot, PhaseKind, PhaseSpot, ValueRange, ValueSpot};
use expr_nodes::{Path, Row};
use std::alloc::{AllocError, Global};

/// What a spot may be.
pub(crate) trait FromSpot {
    ghost from_spot_is: { Spot → Option Self };

    /// The spot as one of this sort. `None` if it is of another.
    fn from_spot(alloc: Global, spot: &Spot) -> Result<Option<Self>, AllocError>
        ensures { IfOk result (λ r. r ≡ from_spot_is spot.now) };
}

/// The spots of one sort, in order.
pub(crate) fn sorted<T: FromSpot + Drop>(
    alloc: Global,
    spots: &[Spot],
) -> Result<Row<T>, AllocError>
    ensures { IfOk result (λ ts. ts ≡ filter_map T.from_spot_is spots.now) }
{
    let mut sorted = Row::new(alloc);
    for spot in spots {
        push_some(&mut sorted, T::from_spot(alloc, spot)?)?;
    }
    Ok(sorted)
}

/// Puts the part at the end, if there is one.
fn push_some<T: Drop>(parts: &mut Row<T>, part: Option<T>) -> Result<(), AllocError>
    ensures { OnOk result (parts.new ≡ parts.old ++ option_to_list part) }
{
    match part {
        Some(part) => parts.push(part),
        None => Ok(()),
    }
}

impl FromSpot for ChoiceSpot {
    ghost from_spot_is = { choice_at };

    fn from_spot(alloc: Global, spot: &Spot) -> Result<Option<ChoiceSpot>, AllocError> {
        match &spot.content {
            Content::Phase {
                kind: PhaseKind::OneOf,
                members,
            } => Ok(Some(ChoiceSpot {
                path: spot.path.copy(alloc)?,
                members: count(members.as_slice())?,
            })),
            Content::Phase { .. } | Content::Object { .. } | Content::Value { .. } => Ok(None),
        }
    }
}

impl FromSpot for ValueSpot {
    ghost from_spot_is = { value_at };

    fn from_spot(alloc: Global, spot: &Spot) -> Result<Option<ValueSpot>, AllocError> {
        match &spot.content {
            Content::Value { range } => Ok(Some(ValueSpot {
                path: spot.path.copy(alloc)?,
                range: copy_range(alloc, range)?,
            })),
            Content::Phase { .. } | Content::Object { .. } => Ok(None),
        }
    }
}

impl FromSpot for PhaseSpot {
    ghost from_spot_is = { phase_at };

    fn from_spot(alloc: Global, spot: &Spot) -> Result<Option<PhaseSpot>, AllocError> {
        match &spot.content {
            Content::Phase { kind, members } => Ok(Some(PhaseSpot {
                path: spot.path.copy(alloc)?,
                kind: *kind,
                members: copy_paths(alloc, members.as_slice())?,
            })),
            Content::Object { .. } | Content::Value { .. } => Ok(None),
        }
    }
}

impl FromSpot for Path {
    ghost from_spot_is = { vehicle_at };

    fn from_spot(alloc: Global, spot: &Spot) -> Result<Option<Path>, AllocError> {
        match &spot.content {
            Content::Object { vehicle: true } => Ok(Some(spot.path.copy(alloc)?)),
            Content::Object { .. } | Content::Phase { .. } | Content::Value { .. } => Ok(None),
        }
    }
}

/// How many there are. More than a `u32` counts are out of memory.
fn count(paths: &[Path]) -> Result<u32, AllocError>
    ensures { IfOk result (λ n. n ≡ length paths.now) }
{
    u32::try_from(paths.len()).map_err(|_| AllocError)
}

/// An equal range.
fn copy_range(alloc: Global, range: &ValueRange) -> Result<ValueRange, AllocError>
    ensures { IfOk result (λ r. r ≡ range.now) }
{
    match range {
        ValueRange::Between { low, high } => Ok(ValueRange::Between {
            low: *low,
            high: *high,
        }),
        ValueRange::Among { numbers } => Ok(ValueRange::Among {
            numbers: copy_numbers(alloc, numbers.as_slice())?,
        }),
        ValueRange::Chars => Ok(ValueRange::Chars),
    }
}

fn copy_numbers(alloc: Global, numbers: &[i64]) -> Result<Row<i64>, AllocError>
    ensures { IfOk result (λ r. r ≡ numbers.now) }
{
    let mut copies = Row::new(alloc);
    for number in numbers {
        copies.push(*number)?;
    }
    Ok(copies)
}

fn copy_paths(alloc: Global, paths: &[Path]) -> Result<Row<Path>, AllocError>
    ensures { IfOk result (λ r. r ≡ paths.now) }
{
    let mut copies = Row::new(alloc);
    for path in paths {
        copies.push(path.copy(alloc)?)?;
    }
    Ok(copies)
}
