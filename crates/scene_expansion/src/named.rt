//! A named scenario, laid out as a scene.

ghost use Rattle.std.specs.Prelude.{◌≡◌, None, Some, false, true, option_copied, option_map, IfErr, IfOk, MatchOption};
ghost use Rattle.osc_base.specs.FaultRows.{first_fault};
ghost use Rattle.osc_base.specs.Stops.{OnStop};
ghost use Rattle.program_calls.specs.composition.Expanded.{scene};
ghost use Rattle.program_calls.specs.composition.SceneFaults.{is_too_large, named_scenario, scene_rows};
ghost use Rattle.program_calls.specs.composition.SeenScenes.{seen_scene};

use crate::layout::Layout;
use crate::limits::pass_limits;
use crate::whole::{all_after, all_before, whole};
use osc_base::{Fault, FaultCode, Place, Stop};
use program_calls::{Scene, Setting, TypeId};
use std::alloc::{AllocError, Global};

/// Why there is no scene: the scenario isn't there, or it is too large. Or out of memory.
pub type ExpandStop = Stop<Fault>;

/// The scene of a scenario. `None` exactly if it has more objects, slots, rules or copied tokens than a scene can have.
pub fn scene_of<'p, L: Layout<'p>>(
    alloc: Global,
    layout: &L,
    of: TypeId,
    setting: Setting,
) -> Result<Option<Scene>, AllocError>
    ensures { IfOk result (λ s. MatchOption s (is_too_large (L.types layout.now) of setting ≡ true) (λ x. (is_too_large (L.types layout.now) of setting ≡ false) × (seen_scene x ≡ scene (L.types layout.now) of setting))) }
{
    let Some(before) = all_before(alloc, layout, of)? else {
        return Ok(None);
    };
    let past = pass_limits(alloc, layout, before.as_slice(), setting.ticks)?;
    if past {
        return Ok(None);
    }
    let Some(after) = all_after(alloc, layout, of)? else {
        return Ok(None);
    };
    let scene = whole(alloc, layout, setting, before.as_slice(), after.as_slice())?;
    Ok(Some(scene))
}

/// The scene of the named scenario. A fault stands at the end of the main file if the scenario isn't there, and at its
/// name if it has too many objects, slots, rules or copied tokens.
pub fn expand<'p, L: Layout<'p>>(
    alloc: Global,
    layout: &L,
    end: Place,
    owner: Option<&str>,
    name: &str,
    setting: Setting,
) -> Result<Scene, ExpandStop>
    ensures fault { IfErr result (λ stop. OnStop stop (λ f. first_fault (scene_rows (L.types layout.now) end (option_copied owner.entry) name.now setting) ≡ Some f)) }
    ensures none { IfOk result (λ s. first_fault (scene_rows (L.types layout.now) end (option_copied owner.entry) name.now setting) ≡ None) }
    ensures scene { IfOk result (λ s. option_map (λ t. scene (L.types layout.now) t setting) (named_scenario (L.types layout.now) (option_copied owner.entry) name.now) ≡ Some (seen_scene s)) }
{
    let Some(of) = layout.scenario(owner, name) else {
        return Err(Stop::At(Fault {
            place: end,
            code: FaultCode::NoScenario,
        }));
    };
    match scene_of(alloc, layout, of, setting)? {
        Some(scene) => Ok(scene),
        None => Err(Stop::At(Fault {
            place: layout.place(of),
            code: FaultCode::TooMany,
        })),
    }
}
