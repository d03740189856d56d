//! Under which conditions constraints and modifiers are there.

ghost use Rattle.std.specs.Prelude.{◌≡◌, map, option_copied, option_to_list, IfOk};
ghost use Rattle.composition.specs.SeenParts.{seen_occurrence, seen_modifier};
ghost use Rattle.composition.specs.SeenScenes.{seen_scene};
ghost use Rattle.composition.specs.There.{presence as conditions_of, modifier_presence as conditions_of_modifier, removed as removed_target};
ghost use Rattle.scene_conditions.specs.SeenConditions.{seen_conditions};
ghost use Rattle.scene_conditions.specs.Gathered.{after_paths};

use crate::conditions::Conditions;
use crate::reads::with_part;
use composition::{ModifierSpot, Occurrence, Scene};
use osc_base::{Mark, Path, Strength};
use std::alloc::{AllocError, Global};

/// The conditions under which a constraint is there, each once: those of its holder, those that its member is under, and
/// those of each path that it reads.
pub fn presence<'a>(
    alloc: Global,
    scene: &'a Scene,
    occurrence: &'a Occurrence,
) -> Result<Conditions<'a>, AllocError>
    ensures { IfOk result (λ c. seen_conditions c ≡ conditions_of (seen_scene scene.now) (seen_occurrence occurrence.now)) }
{
    let met = Conditions::new(alloc).with(scene.guards(&occurrence.holder))?;
    let met = met.with(occurrence.under.as_slice())?;
    let met = with_part(scene, &occurrence.typed, met)?;
    with_path(scene, removed(&occurrence.mark), met)
}

/// The target of a `remove_default`.
fn removed(mark: &Mark) -> Option<&Path>
    ensures { option_to_list (option_copied result) ≡ removed_target mark.now }
{
    match mark.strength {
        Strength::Remove => mark.target.as_ref(),
        Strength::Hard | Strength::Default => None,
    }
}

/// With the conditions of what is read at a path, if there is one.
fn with_path<'a>(
    scene: &'a Scene,
    path: Option<&Path>,
    met: Conditions<'a>,
) -> Result<Conditions<'a>, AllocError>
    ensures { IfOk result (λ c. seen_conditions c ≡ after_paths (seen_scene scene.now) (seen_conditions met.entry) (option_to_list (option_copied path.entry))) }
{
    match path {
        Some(path) => met.with(scene.guards(path)),
        None => Ok(met),
    }
}

/// The conditions under which a modifier is there, each once: those of its phase, of its vehicles, and of each path that
/// it reads.
pub fn modifier_presence<'a>(
    alloc: Global,
    scene: &'a Scene,
    modifier: &ModifierSpot,
) -> Result<Conditions<'a>, AllocError>
    ensures { IfOk result (λ c. seen_conditions c ≡ conditions_of_modifier (seen_scene scene.now) (seen_modifier modifier.now)) }
{
    let met = Conditions::new(alloc).with(scene.guards(&modifier.phase))?;
    let met = met.with(scene.guards(&modifier.own))?;
    let met = with_path(scene, modifier.other.as_ref(), met)?;
    let met = with_part(scene, &modifier.low, met)?;
    with_part(scene, &modifier.high, met)
}
