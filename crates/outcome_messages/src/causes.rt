//! Why there is no run: the constraints that the record needs, and what the setting excludes.

use crate::closed_places::closed_places;
use crate::limits::{Exclusion, excluded};
use message_parts::{ClosedRules, bytes_of, source_of};
use mistake_cases::View;
use outside_io::MemoryShelf;
use run_messages::{Asked, RulePlace, is_duration, put_place, put_seconds, put_setting, view_at};
use std::alloc::{AllocError, Global};

/// The most ticks of a setting.
const MOST_TICKS: u32 = 600;
/// How many places are shown.
const SHOWN: usize = 8;
/// The name of the library's file.
const LIBRARY: &str = "osc";

/// Puts that a scenario has no run, and why.
pub fn put_no_run(
    alloc: Global,
    text: &mut String,
    asked: &Asked<'_>,
    listing: Option<&str>,
    closed: &ClosedRules,
    kept: &mut MemoryShelf,
) -> Result<(), AllocError> {
    let scenario = asked.source.scenario;
    write!(text, "no run: `{scenario}` has no run within ")?;
    put_setting(text, asked.setting)?;
    text.push_str("\n")?;
    match listing {
        Some(listing) => {
            let places = closed_places(alloc, listing, closed)?;
            put_causes(alloc, text, asked, places.as_slice(), kept)
        }
        None => Ok(()),
    }
}

/// Puts the causes: those that a limit alone excludes, else all that the record needs.
fn put_causes(
    alloc: Global,
    text: &mut String,
    asked: &Asked<'_>,
    places: &[RulePlace<'_>],
    kept: &mut MemoryShelf,
) -> Result<(), AllocError> {
    let mut is_excluded = false;
    for place in places {
        if let Some(excluded) = excluded_at(alloc, asked, *place, kept)? {
            put_excluded(alloc, text, *place, &excluded, kept)?;
            is_excluded = true;
        }
    }
    if is_excluded {
        return Ok(());
    }
    put_needed(alloc, text, places, kept)?;
    put_longer(alloc, text, asked, places, kept)
}

/// Puts that a longer run may serve, if nothing but durations is needed.
fn put_longer(
    alloc: Global,
    text: &mut String,
    asked: &Asked<'_>,
    places: &[RulePlace<'_>],
    kept: &mut MemoryShelf,
) -> Result<(), AllocError> {
    if places.is_empty() || asked.setting.ticks >= MOST_TICKS {
        return Ok(());
    }
    for place in places {
        let bytes = source_of(alloc, place.file, kept)?;
        match view_at(bytes_of(&bytes), *place) {
            Some(view) if is_duration(&view) => {}
            _ => return Ok(()),
        }
    }
    write!(
        text,
        "  = help: a longer run may have room for them: `--ticks {MOST_TICKS}`, which is "
    )?;
    let length = i64::from(asked.setting.tick);
    put_seconds(text, i64::from(MOST_TICKS), length)?;
    text.push_str(", is the most\n")
}

/// What a limit of the setting excludes at a place of the user's files.
fn excluded_at(
    alloc: Global,
    asked: &Asked<'_>,
    place: RulePlace<'_>,
    kept: &mut MemoryShelf,
) -> Result<Option<Exclusion>, AllocError> {
    if place.file == LIBRARY {
        return Ok(None);
    }
    let bytes = source_of(alloc, place.file, kept)?;
    match view_at(bytes_of(&bytes), place) {
        Some(view) => excluded(alloc, &view, asked.setting),
        None => Ok(None),
    }
}

fn put_excluded(
    alloc: Global,
    text: &mut String,
    place: RulePlace<'_>,
    excluded: &Exclusion,
    kept: &mut MemoryShelf,
) -> Result<(), AllocError> {
    put_place(alloc, text, place, excluded.label.as_str(), kept)?;
    let cure = excluded.cure.as_str();
    write!(text, "  = help: {cure}\n")
}

/// Puts the places of the user's files that the record needs.
fn put_needed(
    alloc: Global,
    text: &mut String,
    places: &[RulePlace<'_>],
    kept: &mut MemoryShelf,
) -> Result<(), AllocError> {
    let count = places.iter().filter(|it| it.file != LIBRARY).count();
    match count {
        0 => return put_none_needed(text),
        1 => text.push_str(
            "  no run meets this constraint, with how phases follow and vehicles move:\n",
        )?,
        _ => text.push_str(
            "  no run meets these constraints together, with how phases follow and vehicles move:\n",
        )?,
    }
    let mut shown = 0usize;
    for place in places {
        if place.file != LIBRARY && shown < SHOWN {
            put_place(alloc, text, *place, "", kept)?;
            shown = shown.saturating_add(1);
        }
    }
    if count > shown {
        let more = count.saturating_sub(shown);
        write!(text, "  and {more} more\n")?;
    }
    put_library(alloc, text, places, kept)
}

fn put_none_needed(text: &mut String) -> Result<(), AllocError> {
    text.push_str(
        "  = note: no constraint of the source is needed for that: its phases alone don't fit the setting\n",
    )
}

/// Puts what of the library the record needs besides.
fn put_library(
    alloc: Global,
    text: &mut String,
    places: &[RulePlace<'_>],
    kept: &mut MemoryShelf,
) -> Result<(), AllocError> {
    let bytes = source_of(alloc, LIBRARY, kept)?;
    let mut mark = "  = note: they also need what the library says of each `vehicle`: ";
    for place in places {
        if place.file == LIBRARY {
            if let Some(view) = view_at(bytes_of(&bytes), *place) {
                put_declared(text, mark, &view)?;
                mark = ", ";
            }
        }
    }
    if mark == ", " {
        text.push_str("\n")?;
    }
    Ok(())
}

/// Puts the initial value or the constraint that stands at a place of the library.
fn put_declared(text: &mut String, mark: &str, view: &View<'_>) -> Result<(), AllocError> {
    let (before, value, rest) = (view.before.trim(), view.number(), view.rest());
    if before.ends_with('=') {
        write!(text, "{mark}`{before} {value}`")
    } else {
        write!(text, "{mark}`{rest}`")
    }
}
