//! The first place of each path in a list.

ghost use Rattle.std.specs.Prelude.{◌≡◌, ◌+◌, ◌<◌, ◌^◌, None, Some, cond, find, length, option_copied, slice_get, IfOk, OnOk};
ghost use Rattle.std.specs.Option.{option_or};
ghost use Rattle.osc_base.specs.declared.path.Path.{Path};
ghost use Rattle.osc_base.specs.Paths.{same_path, then_duration};
ghost use Rattle.path_index.specs.Places.{place_at, first_place, Places};

use indexmap::IndexMap;
use osc_base::{Path, Step, Text};
use std::alloc::{AllocError, Global};

/// What stands at a path.
pub trait HasPath {
    ghost path_of: { Self → Path };

    /// The path.
    fn path(&self) -> &Path
        ensures { result.now ≡ path_of self.now };
}

/// The first place of each path in a list of fewer than 2^32 things.
#[derive(Drop)]
pub struct PathIndex {
    places: IndexMap<Path, u32>,
}

impl PathIndex {
    fn new(alloc: Global) -> PathIndex
        ensures { (path : Path) → place_at result path ≡ None }
    {
        PathIndex {
            places: IndexMap::new(alloc),
        }
    }

    /// The first place of a path.
    pub fn get(&self, path: &Path) -> Option<u32>
        ensures { result ≡ place_at self.now path.now }
    {
        self.places.get(path).copied()
    }

    /// Keeps the place for the path, if it has none yet.
    fn note(&mut self, path: Path, place: u32) -> Result<(), AllocError>
        ensures { OnOk result ((other : Path) → place_at self.new other ≡ option_or (place_at self.old other) (cond (same_path path other) (Some place) None)) }
    {
        if self.places.contains_key(&path) {
            return Ok(());
        }
        self.places.insert(path, place)?;
        Ok(())
    }

    /// The first place of each path. More things than a `u32` counts are out of memory.
    pub fn of<T: HasPath>(alloc: Global, things: &[T]) -> Result<PathIndex, AllocError>
        ensures few { OnOk result (length things.now < 2 ^ 32) }
        ensures places { IfOk result (λ t. Places t (λ x. x) T.path_of things.now) }
    {
        let mut index = PathIndex::new(alloc);
        let mut place: u32 = 0;
        for thing in things {
            index.note(thing.path().copy(alloc)?, place)?;
            place = next_place(place)?;
        }
        Ok(index)
    }

    /// The first place of each path with `duration` after it. More things than a `u32` counts are out of memory.
    pub fn of_durations<T: HasPath>(alloc: Global, things: &[T]) -> Result<PathIndex, AllocError>
        ensures few { OnOk result (length things.now < 2 ^ 32) }
        ensures places { IfOk result (λ t. Places t then_duration T.path_of things.now) }
    {
        let mut index = PathIndex::new(alloc);
        let mut place: u32 = 0;
        for thing in things {
            index.note(duration_of(alloc, thing.path())?, place)?;
            place = next_place(place)?;
        }
        Ok(index)
    }
}

/// The path with `duration` after it.
pub fn duration_of(alloc: Global, path: &Path) -> Result<Path, AllocError>
    ensures { IfOk result (λ p. p ≡ then_duration path.now) }
{
    let mut timed = path.copy(alloc)?;
    timed
        .steps
        .push(Step::Name(Text::copy(alloc, "duration")?))?;
    Ok(timed)
}

/// The next place. A place that a `u32` doesn't hold counts as out of memory.
fn next_place(place: u32) -> Result<u32, AllocError>
    ensures next { IfOk result (λ n. n ≡ place + 1) }
    ensures small { IfOk result (λ n. n < 2 ^ 32) }
{
    place.checked_add(1).ok_or(AllocError)
}

/// The first of the things whose place the index has for the path.
pub fn found<'a, T: HasPath>(index: &PathIndex, things: &'a [T], path: &Path) -> Option<&'a T>
    requires { Places index.now (λ x. x) T.path_of things.now }
    ensures { option_copied result ≡ find (λ x. same_path (T.path_of x) path.now) things.now }
{
    match index.get(path) {
        Some(place) => things.get(place as usize),
        None => None,
    }
}

/// The first of the things that with `duration` after its path has the path, by an index of durations.
pub fn found_timed<'a, T: HasPath>(index: &PathIndex, things: &'a [T], path: &Path) -> Option<&'a T>
    requires { Places index.now then_duration T.path_of things.now }
    ensures { option_copied result ≡ find (λ x. same_path (then_duration (T.path_of x)) path.now) things.now }
{
    match index.get(path) {
        Some(place) => things.get(place as usize),
        None => None,
    }
}
