//! Whether works pass a limit.

ghost use Rattle.std.specs.Prelude.{◌≡◌, IfOk};
ghost use Rattle.scene_texts.specs.expansion_laws.NodeCounts.{pass_limits as pass};
ghost use Rattle.scene_expansion.specs.Walks.{nodes_done};

use crate::counts::Counts;
use crate::layout::WorkLayout;
use crate::work::Work;
use std::alloc::{AllocError, Global};

/// Whether the objects, slots, rules or tokens of works pass their limit, given the last tick. It counts no further than
/// to the first work at which they do.
pub(crate) fn pass_limits<'p, L: WorkLayout<'p>>(
    alloc: Global,
    layout: &L,
    works: &[Work<'p>],
    last: u32,
) -> Result<bool, AllocError>
    ensures { IfOk result (λ past. past ≡ pass last (nodes_done (L.types layout.now) works.now)) }
{
    let mut all = Counts::none();
    for work in works {
        let own = layout.counts(alloc, work, last)?;
        all = all.with(own);
        if all.are_past() {
            return Ok(true);
        }
    }
    Ok(false)
}
