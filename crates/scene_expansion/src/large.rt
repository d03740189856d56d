//! Whether a scenario is too large for a scene.

ghost use Rattle.std.specs.Prelude.{◌≡◌, IfOk};
ghost use Rattle.program_calls.specs.composition.SceneFaults as faults;

use crate::layout::WorkLayout;
use crate::limits::pass_limits;
use crate::whole::all_before;
use program_calls::{Setting, TypeId};
use std::alloc::{AllocError, Global};

/// Whether a scenario has more objects, slots, rules or copied tokens than a scene can have. It makes no spot, constraint
/// or modifier.
pub fn is_too_large<'p, L: WorkLayout<'p>>(
    alloc: Global,
    layout: &L,
    of: TypeId,
    setting: Setting,
) -> Result<bool, AllocError>
    ensures { IfOk result (λ large. large ≡ faults.is_too_large (L.types layout.now) of setting) }
{
    let Some(before) = all_before(alloc, layout, of)? else {
        return Ok(true);
    };
    let past = pass_limits(alloc, layout, before.as_slice(), setting.ticks)?;
    Ok(past)
}
