//! Works one after another, each before or after the works in it.

ghost use Rattle.std.specs.Prelude.{◌≡◌, ◌+◌, ◌<◌, ◌++◌, ◌∷◌, [], false, true, None, flat_map, length, map, reverse, IfOk, IfSome, OnOk};
ghost use Rattle.scene_expansion.specs.SeenWorks.{seen_work};
ghost use Rattle.scene_expansion.specs.Walks.{nodes_after, nodes_before, nodes_done, whole_after, whole_before};
ghost use Rattle.scene_texts.specs.expansion_laws.WorkNodes.{closed_for, node_of, nodes_for};

use crate::layout::WorkLayout;
use crate::work::Work;
use std::alloc::{AllocError, Global};

/// The most works that are laid out: each is an object or has a slot, and there are at most 65,536 of either.
pub const MOST_WORKS: u32 = 131_072;

/// Puts works on top of others, the first one on top.
fn stack<'p>(pending: &mut Vec<Work<'p>>, parts: Vec<Work<'p>>) -> Result<(), AllocError>
    ensures { OnOk result (pending.new.items ≡ pending.old.items ++ reverse parts.entry.items) }
{
    let mut left: Vec<Work<'p>> = parts;
    while let Some(work) = left.pop() {
        pending.push(work)?;
    }
    Ok(())
}

/// Puts works on top of others, the last one on top.
#[tactic(auto, using(crate::proofs::Turning::turned_twice))]
fn stack_last<'p>(
    alloc: Global,
    pending: &mut Vec<Work<'p>>,
    parts: Vec<Work<'p>>,
) -> Result<(), AllocError>
    ensures { OnOk result (pending.new.items ≡ pending.old.items ++ parts.entry.items) }
{
    let mut turned: Vec<Work<'p>> = Vec::new(alloc);
    stack(&mut turned, parts)?;
    stack(pending, turned)
}

/// The works from the last to the first.
fn turned<'p>(alloc: Global, works: Vec<Work<'p>>) -> Result<Vec<Work<'p>>, AllocError>
    ensures { IfOk result (λ ws. ws.items ≡ reverse works.entry.items) }
{
    let mut turned: Vec<Work<'p>> = Vec::new(alloc);
    stack(&mut turned, works)?;
    Ok(turned)
}

/// Lays out a work: moves it to `done`, and puts the works in it on top of the others, the first one on top.
fn lay_before<'p, L: WorkLayout<'p>>(
    alloc: Global,
    layout: &L,
    work: Work<'p>,
    pending: &mut Vec<Work<'p>>,
    done: &mut Vec<Work<'p>>,
) -> Result<(), AllocError>
    ensures nodes { OnOk result (nodes_before (L.types layout.now) done.new.items pending.new.items ≡ nodes_before (L.types layout.now) done.old.items (pending.old.items ++ work.entry ∷ [])) }
    ensures one { OnOk result (length done.new.items ≡ length done.old.items + 1) }
{
    let parts = layout.parts(alloc, &work)?;
    done.push(work)?;
    stack(pending, parts)
}

/// Lays out a work: moves it to `done`, and puts the works in it on top of the others, the last one on top.
fn lay_after<'p, L: WorkLayout<'p>>(
    alloc: Global,
    layout: &L,
    work: Work<'p>,
    pending: &mut Vec<Work<'p>>,
    done: &mut Vec<Work<'p>>,
) -> Result<(), AllocError>
    ensures nodes { OnOk result (nodes_after (L.types layout.now) done.new.items pending.new.items ≡ nodes_after (L.types layout.now) done.old.items (pending.old.items ++ work.entry ∷ [])) }
    ensures one { OnOk result (length done.new.items ≡ length done.old.items + 1) }
{
    let parts = layout.parts(alloc, &work)?;
    done.push(work)?;
    stack_last(alloc, pending, parts)
}

/// A work and all works in it, each before the works in it. `None` if there are more than `MOST_WORKS`.
pub(crate) fn laid_before<'p, L: WorkLayout<'p>>(
    alloc: Global,
    layout: &L,
    root: Work<'p>,
    parts: Vec<Work<'p>>,
) -> Result<Option<Vec<Work<'p>>>, AllocError>
    ensures all { IfOk result (λ laid. IfSome laid (λ ws. nodes_done (L.types layout.now) ws.items ≡ whole_before (L.types layout.now) (seen_work root.entry) (map seen_work parts.entry.items))) }
    ensures many { IfOk result (λ laid. laid ≡ None → 131072 < length (whole_before (L.types layout.now) (seen_work root.entry) (map seen_work parts.entry.items))) }
{
    let mut done: Vec<Work<'p>> = Vec::new(alloc);
    done.push(root)?;
    let mut pending: Vec<Work<'p>> = Vec::new(alloc);
    stack(&mut pending, parts)?;
    for _laid in 0..MOST_WORKS {
        let Some(work) = pending.pop() else {
            return Ok(Some(done));
        };
        lay_before(alloc, layout, work, &mut pending, &mut done)?;
    }
    Ok(None)
}

/// A work and all works in it, each after the works in it. `None` if there are more than `MOST_WORKS`.
pub(crate) fn laid_after<'p, L: WorkLayout<'p>>(
    alloc: Global,
    layout: &L,
    root: Work<'p>,
    parts: Vec<Work<'p>>,
) -> Result<Option<Vec<Work<'p>>>, AllocError>
    ensures all { IfOk result (λ laid. IfSome laid (λ ws. nodes_done (L.types layout.now) ws.items ≡ whole_after (L.types layout.now) (seen_work root.entry) (map seen_work parts.entry.items))) }
    ensures many { IfOk result (λ laid. laid ≡ None → 131072 < length (whole_after (L.types layout.now) (seen_work root.entry) (map seen_work parts.entry.items))) }
{
    let mut done: Vec<Work<'p>> = Vec::new(alloc);
    done.push(root)?;
    let mut pending: Vec<Work<'p>> = parts;
    for _laid in 0..MOST_WORKS {
        let Some(work) = pending.pop() else {
            return Ok(Some(turned(alloc, done)?));
        };
        lay_after(alloc, layout, work, &mut pending, &mut done)?;
    }
    Ok(None)
}
