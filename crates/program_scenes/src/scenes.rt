//! The scene of a scenario of a program.

ghost use Rattle.std.specs.Prelude.{◌≡◌, IfOk, None};
ghost use Rattle.name_scope.specs.FileNumbers.{wanted_name};
ghost use Rattle.named_scenario.specs.Naming.{types_in};
ghost use Rattle.program_scenes.specs.SceneFound.{IsSceneFound};
ghost use Rattle.work_parts.specs.program_texts.SeenTexts.{types_with};
ghost use Rattle.named_scenario.specs.type_heads.Told.{told};

use crate::layout::ProgramLayout;
use name_scope::Program;
use named_scenario::{NamedScenario, ProgramMembers, Setting, TypeId, Types};
use std::alloc::{AllocError, Global};
use work_parts::Scene;

/// The scene of a scenario that was found in a program, in a setting. `None` exactly if it has more objects, slots, rules or
/// copied tokens than a scene can have. This is found before anything of that size is made.
pub fn scene_of(
    alloc: Global,
    program: &Program,
    named: &NamedScenario<'_>,
    setting: Setting,
) -> Result<Option<Scene>, AllocError>
    requires whole { wanted_name program.now ≡ None }
    requires same_types { named.now.types ≡ told (types_in program.now) }
    ensures { IfOk result (IsSceneFound (types_in program.now) named.now.id setting) }
{
    let members = ProgramMembers::of(alloc, program)?;
    let found = scene_among(alloc, &named.types, &members, named.id, setting)?;
    Ok(found)
}

/// The scene of a scenario among types with these members. Both are those of one program.
fn scene_among(
    alloc: Global,
    types: &Types,
    members: &ProgramMembers<'_>,
    of: TypeId,
    setting: Setting,
) -> Result<Option<Scene>, AllocError>
    requires built { types.now ≡ told (types_with members.now types.now.table) }
    ensures { IfOk result (IsSceneFound (types_with members.now types.now.table) of setting) }
{
    let layout = ProgramLayout::of(alloc, types, members)?;
    let found = work_parts::scene_of(alloc, &layout, of, setting)?;
    Ok(found)
}
