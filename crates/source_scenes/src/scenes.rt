ghost use Rattle.std.specs.Prelude.{◌≡◌, ◌≢◌, [], IfOk, None, true, option_copied};
ghost use Rattle.loaded_programs.specs.composition.Invariants.{is_setting};
ghost use Rattle.dsl_tree.specs.Views.{compound_tree};
ghost use Rattle.name_scope.specs.FileNumbers.{wanted_name};
ghost use Rattle.program_scenes.specs.named_scenario.Declarations.{IsDeclaredBy};
ghost use Rattle.program_scenes.specs.named_scenario.Naming.{types_in};
ghost use Rattle.source_scenes.specs.FoundScenes.{IsFoundScene, IsKnown, IsSceneOf, IsSomeLoad};
ghost use Rattle.source_scenes.specs.Programs.{name_in, owner_in};
ghost use Rattle.program_scenes.specs.type_heads.Told.{told};

use crate::found::FoundScene;
use crate::refusals::{fault_in, name_place, no_scenario};
use name_scope::Program;
use osc_base::{Fault, FaultCode};
use program_scenes::{NameStop, NamedScenario, Setting, find_scenario, scene_of};
use std::alloc::{AllocError, Global};

/// The scene of the scenario that a word names in a program that was loaded, or the reply that refuses
/// the program. The word is `NAME`, or `OWNER.NAME`, split at its first point.
pub fn scene_in(
    alloc: Global,
    program: &Program,
    word: &str,
    setting: Setting,
) -> Result<FoundScene, AllocError>
    requires main { program.now ≢ [] }
    requires whole { wanted_name program.now ≡ None }
    requires loaded { IsSomeLoad program.now }
    requires ranges { is_setting setting ≡ true }
    ensures { IfOk result (IsFoundScene program.now setting word.now) }
{
    let (owner, name) = owner_and_name(word);
    match find_scenario(alloc, program, owner, name) {
        Ok(named) => scene_of_named(alloc, program, &named, setting),
        Err(NameStop::At(first)) => Ok(FoundScene::Refused(fault_in(alloc, program, first)?)),
        Err(NameStop::Absent) => Ok(FoundScene::Refused(no_scenario(alloc, program)?)),
        Err(NameStop::Memory) => Err(AllocError),
    }
}

/// The owner and the name in the word of a scenario.
fn owner_and_name(word: &str) -> (Option<&str>, &str)
    ensures owner { option_copied result.0 ≡ owner_in word.now }
    ensures name { result.1.now ≡ name_in word.now }
{
    match word.split_once('.') {
        Some((owner, name)) => (Some(owner), name),
        None => (None, word),
    }
}

/// The scene of a scenario of the program, or the reply that it is too large.
fn scene_of_named(
    alloc: Global,
    program: &Program,
    named: &NamedScenario<'_>,
    setting: Setting,
) -> Result<FoundScene, AllocError>
    requires whole { wanted_name program.now ≡ None }
    requires same_types { named.now.types ≡ told (types_in program.now) }
    requires declared { IsDeclaredBy (types_in program.now) named.now.id (compound_tree named.now.declaration.now) }
    requires known { IsKnown program.now named.now.id setting }
    ensures { IfOk result (IsSceneOf program.now setting named.now.id) }
{
    match scene_of(alloc, program, named, setting)? {
        Some(scene) => Ok(FoundScene::Scene(scene)),
        None => {
            let (place, code) = (name_place(named.declaration), FaultCode::TooMany);
            let reply = fault_in(alloc, program, Fault { place, code })?;
            Ok(FoundScene::Refused(reply))
        }
    }
}
