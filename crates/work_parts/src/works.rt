//! Works of any sort.

ghost use Rattle.std.specs.Prelude.{◌≡◌, IfOk};
ghost use Rattle.object_works.specs.scene_expansion.expansion_laws.WorkNodes.{node_of};
ghost use Rattle.work_counts.specs.program_texts.SeenTexts.{types_in};
ghost use Rattle.object_works.specs.scene_expansion.AllCounts.{counts_of};
ghost use Rattle.object_works.specs.scene_expansion.SeenWorks.{seen_work};

use crate::objects::{object_counts, value_counts};
use crate::phases::{composition_counts, invocation_counts, wait_counts};
use object_works::{Counts, Work};
use std::alloc::{AllocError, Global};
use work_counts::ProgramTexts;

/// How many objects, slots, rules and tokens a work has by itself, given the last tick. Each count stops at the greatest
/// number of 64 bits.
pub fn counts(
    alloc: Global,
    texts: &ProgramTexts<'_>,
    work: &Work<'_>,
    last: u32,
) -> Result<Counts, AllocError>
    ensures { IfOk result (λ c. c ≡ counts_of last (node_of (types_in texts.now) (seen_work work.now))) }
{
    match work {
        Work::Object { steps, of, .. } => Ok(object_counts(texts, *steps, *of, last)),
        Work::Value { range, .. } => Ok(value_counts(range, last)),
        Work::Comp { node, .. } => Ok(composition_counts(node, last)),
        Work::Invoke { node, of, .. } => {
            let own = invocation_counts(alloc, texts, node, *of, last)?;
            Ok(own)
        }
        Work::Wait { node, .. } => Ok(wait_counts(node, last)),
    }
}
