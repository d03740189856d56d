//! The first place of each path in a list of a run.

ghost use Rattle.std.specs.Prelude.{◌≡◌, ◌+◌, ◌<◌, ◌^◌, None, Some, cond, find, option_copied, IfOk, OnOk};
ghost use Rattle.std.specs.Option.{option_or};
ghost use Rattle.osc_base.specs.Paths.{same_path};
ghost use Rattle.run_entries.specs.RunPlaces.{place_at, RunPlaces};

use composition::HasPath;
use indexmap::IndexMap;
use osc_base::Path;
use std::alloc::{AllocError, Global};

/// The first place of each path in a list of fewer than 2^32 things. The paths are those that stand in the things.
#[derive(Drop)]
pub(crate) struct RunIndex<'a> {
    places: IndexMap<&'a Path, u32>,
}

impl<'a> RunIndex<'a> {
    fn with_room(alloc: Global, count: usize) -> Result<RunIndex<'a>, AllocError>
        ensures { IfOk result (λ t. (path : Path) → place_at t path ≡ None) }
    {
        Ok(RunIndex {
            places: IndexMap::with_capacity(alloc, count)?,
        })
    }

    /// The first place of a path.
    fn get(&self, path: &Path) -> Option<u32>
        ensures { result ≡ place_at self.now path.now }
    {
        self.places.get(&path).copied()
    }

    /// Keeps the place for the path, if it has none yet.
    fn note(&mut self, path: &'a Path, place: u32) -> Result<(), AllocError>
        ensures { OnOk result ((other : Path) → place_at self.new other ≡ option_or (place_at self.old other) (cond (same_path path.entry.now other) (Some place) None)) }
    {
        let known = self.places.insert(path, place)?;
        match known {
            Some(first) => self.put_back(path, first),
            None => Ok(()),
        }
    }

    /// Sets the place of the path.
    fn put_back(&mut self, path: &'a Path, place: u32) -> Result<(), AllocError>
        ensures { OnOk result ((other : Path) → place_at self.new other ≡ cond (same_path path.entry.now other) (Some place) (place_at self.old other)) }
    {
        self.places.insert(path, place)?;
        Ok(())
    }

    /// The first place of each path. More things than a `u32` counts are out of memory.
    pub(crate) fn of<T: HasPath>(alloc: Global, things: &'a [T]) -> Result<RunIndex<'a>, AllocError>
        ensures { IfOk result (λ t. RunPlaces t T.path_of things.entry.now) }
    {
        let mut index = RunIndex::with_room(alloc, things.len())?;
        let mut place: u32 = 0;
        for thing in things {
            index.note(thing.path(), place)?;
            place = next_place(place)?;
        }
        Ok(index)
    }
}

/// The next place. A place that a `u32` doesn't hold counts as out of memory.
fn next_place(place: u32) -> Result<u32, AllocError>
    ensures next { IfOk result (λ n. n ≡ place + 1) }
    ensures small { IfOk result (λ n. n < 2 ^ 32) }
{
    place.checked_add(1).ok_or(AllocError)
}

/// The first of the things whose place the index has for the path.
pub(crate) fn found<'b, T: HasPath>(
    index: &RunIndex<'_>,
    things: &'b [T],
    path: &Path,
) -> Option<&'b T>
    requires { RunPlaces index.now T.path_of things.now }
    ensures { option_copied result ≡ find (λ x. same_path (T.path_of x) path.now) things.now }
{
    match index.get(path) {
        Some(place) => things.get(place as usize),
        None => None,
    }
}
