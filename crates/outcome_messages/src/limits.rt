//! Constraints that a limit of the setting makes impossible, whatever else the source says.

use command_words::Setting;
use mistake_cases::View;
use run_messages::{Asks, Ends, asked_at, ends_in, put_decimal, put_seconds};
use std::alloc::{AllocError, Global};

/// The greatest values of the options.
const MOST_TICKS: i64 = 600;

const MOST_TICK: i64 = 1000;

const MOST_LANES: i64 = 8;

const MOST_ROAD: i64 = 10_000;

/// What a limit of the setting excludes.
#[derive(Debug, Drop)]
pub struct Exclusion {
    /// What is asked for, and what the limit is.
    pub label: String,
    /// What would admit it.
    pub cure: String,
}

/// Why no setting of these limits admits what is asked for at a place. `None` if it may, or if it isn't known.
pub fn excluded(
    alloc: Global,
    view: &View<'_>,
    setting: Setting,
) -> Result<Option<Exclusion>, AllocError> {
    let Some((asks, text)) = asked_at(view) else {
        return Ok(None);
    };
    let Some(ends) = ends_in(text) else {
        return Ok(None);
    };
    match asks {
        Asks::Duration => no_duration(alloc, ends, setting),
        Asks::Lane => no_lane(alloc, ends, setting.lanes),
        Asks::Length => long_way(alloc, ends, setting.road),
    }
}

/// A duration that no number of ticks makes, or that is longer than a run may be.
fn no_duration(
    alloc: Global,
    ends: Ends,
    setting: Setting,
) -> Result<Option<Exclusion>, AllocError> {
    let (ticks, tick) = (i64::from(setting.ticks), i64::from(setting.tick));
    let needed = ticks_for(ends, tick);
    if needed.saturating_mul(tick) > ends.high {
        return Ok(Some(between_ticks(alloc, ends, tick)?));
    }
    if needed <= ticks {
        return Ok(None);
    }
    let mut label = String::from_str(alloc, "asks for ")?;
    put_decimal(&mut label, ends.low, 3)?;
    label.push_str(" s, and a run has at most ")?;
    put_seconds(&mut label, ticks, tick)?;
    let mut cure = String::new(alloc);
    if needed <= MOST_TICKS {
        write!(cure, "`--ticks {needed}` would admit it")?;
    } else {
        put_longest(&mut cure, ends)?;
    }
    Ok(Some(Exclusion { label, cure }))
}

/// The least number of ticks of this length that are as long as what is asked for.
fn ticks_for(ends: Ends, tick: i64) -> i64 {
    let last = ends.low.max(0).saturating_add(tick.saturating_sub(1));
    last.checked_div(tick).unwrap_or(i64::MAX)
}

/// A duration that stands between two numbers of ticks.
fn between_ticks(alloc: Global, ends: Ends, tick: i64) -> Result<Exclusion, AllocError> {
    let mut label = String::from_str(alloc, "asks for ")?;
    put_decimal(&mut label, ends.low, 3)?;
    if ends.low != ends.high {
        label.push_str(" to ")?;
        put_decimal(&mut label, ends.high, 3)?;
    }
    write!(
        label,
        " s, which no whole number of ticks of {tick} ms makes"
    )?;
    let mut cure = String::new(alloc);
    match fitting(ends) {
        Some(length) => write!(
            cure,
            "ticks of {length} ms would make it (`--tick {length}`)"
        )?,
        None => cure.push_str("a duration is a whole number of ticks (`--tick N`)")?,
    }
    Ok(Exclusion { label, cure })
}

/// The first of some lengths of ticks of which few enough make what is asked for.
fn fitting(ends: Ends) -> Option<i64> {
    for length in [100, 50, 40, 25, 20, 10, 200, 250, 500, MOST_TICK] {
        let needed = ticks_for(ends, length);
        if needed <= MOST_TICKS && needed.saturating_mul(length) <= ends.high {
            return Some(length);
        }
    }
    None
}

/// Puts with which ticks the longest run has room for what is asked for, if it has.
fn put_longest(cure: &mut String, ends: Ends) -> Result<(), AllocError> {
    match fitting(ends) {
        Some(length) => {
            let needed = ticks_for(ends, length);
            write!(cure, "`--ticks {needed} --tick {length}` would admit it")
        }
        None => {
            cure.push_str("no run is longer than ")?;
            put_seconds(cure, MOST_TICKS, MOST_TICK)?;
            write!(cure, " (`--ticks {MOST_TICKS} --tick {MOST_TICK}`)")
        }
    }
}

/// A lane that the road doesn't have.
fn no_lane(alloc: Global, ends: Ends, lanes: u32) -> Result<Option<Exclusion>, AllocError> {
    let least = ends.low.saturating_add(999) / 1000;
    if ends.high < 1000 {
        let label = String::from_str(alloc, "lanes count from 1, the rightmost")?;
        let cure = String::from_str(alloc, "write a lane from 1 on")?;
        return Ok(Some(Exclusion { label, cure }));
    }
    if least <= i64::from(lanes) {
        return Ok(None);
    }
    let label = format!(in alloc; "asks for lane {least}, and the road has {lanes}")?;
    let mut cure = String::new(alloc);
    if least <= MOST_LANES {
        write!(cure, "`--lanes {least}` would admit it")?;
    } else {
        write!(cure, "no road has more than {MOST_LANES} lanes")?;
    }
    Ok(Some(Exclusion { label, cure }))
}

/// A position or a distance that is longer than the road.
fn long_way(alloc: Global, ends: Ends, road: u32) -> Result<Option<Exclusion>, AllocError> {
    let least = ends.low.saturating_add(999) / 1000;
    if least <= i64::from(road) {
        return Ok(None);
    }
    let mut label = String::from_str(alloc, "asks for ")?;
    put_decimal(&mut label, ends.low, 3)?;
    write!(label, " m, and the road has {road} m")?;
    let mut cure = String::new(alloc);
    if least <= MOST_ROAD {
        write!(cure, "`--road {least}` would admit it")?;
    } else {
        write!(cure, "no road is longer than {MOST_ROAD} m")?;
    }
    Ok(Some(Exclusion { label, cure }))
}
