//! What is told of a run that is no instance.

ghost use Rattle.std.specs.Prelude.{◌≡◌, Some, option_copied, option_map, IfOk};
ghost use Rattle.std.specs.Option.{option_or};
ghost use Rattle.instance_check.specs.FirstWrong.{wrong_at as told_at};

use osc_base::{Path, Place};
use run_check::{Clause, Wrong};
use std::alloc::{AllocError, Global};

/// A clause fails at a path, at a place of the source if it is about one.
pub(crate) fn wrong(
    alloc: Global,
    clause: Clause,
    path: &Path,
    place: Option<Place>,
) -> Result<Option<Wrong>, AllocError>
    ensures { IfOk result (λ w. w ≡ Some (record { clause = clause; path = path.now; place = place })) }
{
    Ok(Some(Wrong {
        clause,
        path: path.copy(alloc)?,
        place,
    }))
}

/// A clause fails at a path, if there is one.
pub(crate) fn wrong_at(
    alloc: Global,
    clause: Clause,
    path: Option<&Path>,
) -> Result<Option<Wrong>, AllocError>
    ensures { IfOk result (λ w. w ≡ option_map (told_at clause) (option_copied path.entry)) }
{
    match path {
        Some(path) => wrong(alloc, clause, path, None),
        None => Ok(None),
    }
}

/// The first path, else the second.
pub(crate) fn either<'a>(first: Option<&'a Path>, second: Option<&'a Path>) -> Option<&'a Path>
    ensures { option_copied result ≡ option_or (option_copied first.entry) (option_copied second.entry) }
{
    match first {
        Some(path) => Some(path),
        None => second,
    }
}
