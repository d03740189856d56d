//! The paths of the members of phases.

ghost use Rattle.std.specs.Prelude.{◌≡◌, ◌∷◌, [], length, map, IfOk};
ghost use Rattle.std.specs.List.{range_with_len};
ghost use Rattle.osc_base.specs.Paths as paths;

use dsl_tree::CompNode;
use object_works::{then_do, then_member};
use osc_base::{Path, Row};
use std::alloc::{AllocError, Global};

/// The paths of so many members of the phase at a path, from member 0 on.
fn first_members(alloc: Global, path: &Path, count: u32) -> Result<Row<Path>, AllocError>
    ensures { IfOk result (λ ps. ps ≡ map (paths.then_member path.now) (range_with_len 0 count)) }
{
    let mut members = Row::new(alloc);
    for number in 0..count {
        members.push(then_member(alloc, path, number)?)?;
    }
    Ok(members)
}

/// How many members a composition has. More of them than a `u32` counts are out of memory.
fn member_count(node: &CompNode) -> Result<u32, AllocError>
    ensures { IfOk result (λ n. n ≡ length node.now.members) }
{
    u32::try_from(node.members.as_slice().len())
        .ok()
        .ok_or(AllocError)
}

/// The paths of the members of a composition at a path.
pub(crate) fn member_paths(
    alloc: Global,
    path: &Path,
    node: &CompNode,
) -> Result<Row<Path>, AllocError>
    ensures { IfOk result (λ ps. ps ≡ map (paths.then_member path.now) (range_with_len 0 (length node.now.members))) }
{
    let count = member_count(node)?;
    let members = first_members(alloc, path, count)?;
    Ok(members)
}

/// The path of the `do` of the scenario that the phase at a path invokes.
pub(crate) fn do_paths(alloc: Global, path: &Path) -> Result<Row<Path>, AllocError>
    ensures { IfOk result (λ ps. ps ≡ paths.then_do path.now ∷ []) }
{
    let mut members = Row::new(alloc);
    members.push(then_do(alloc, path)?)?;
    Ok(members)
}
