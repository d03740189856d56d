//! Whether a scenario of a program is too large for a scene.

ghost use Rattle.std.specs.Prelude.{◌≡◌, IfOk, None};
ghost use Rattle.named_scenario.specs.composition.SceneFaults.{is_too_large as too_large};
ghost use Rattle.name_scope.specs.FileNumbers.{wanted_name};
ghost use Rattle.named_scenario.specs.Naming.{types_in};
ghost use Rattle.work_parts.specs.program_texts.SeenTexts.{types_with};
ghost use Rattle.named_scenario.specs.type_heads.Told.{told};

use crate::layout::ProgramLayout;
use name_scope::Program;
use named_scenario::{NamedScenario, ProgramMembers, Setting, TypeId, Types};
use std::alloc::{AllocError, Global};

/// Whether a scenario that was found in a program has more objects, slots, rules or copied tokens than a scene can have, in
/// runs as long as the setting says. It makes no part of the scene.
pub fn is_too_large(
    alloc: Global,
    program: &Program,
    named: &NamedScenario<'_>,
    setting: Setting,
) -> Result<bool, AllocError>
    requires whole { wanted_name program.now ≡ None }
    requires same_types { named.now.types ≡ told (types_in program.now) }
    ensures { IfOk result (λ large. large ≡ too_large (types_in program.now) named.now.id setting) }
{
    let members = ProgramMembers::of(alloc, program)?;
    let large = is_large_among(alloc, &named.types, &members, named.id, setting)?;
    Ok(large)
}

/// Whether a scenario among types with these members is too large for a scene. Both are those of one program.
fn is_large_among(
    alloc: Global,
    types: &Types,
    members: &ProgramMembers<'_>,
    of: TypeId,
    setting: Setting,
) -> Result<bool, AllocError>
    requires built { types.now ≡ told (types_with members.now types.now.table) }
    ensures { IfOk result (λ past. past ≡ too_large (types_with members.now types.now.table) of setting) }
{
    let layout = ProgramLayout::of(alloc, types, members)?;
    let past = work_parts::is_too_large(alloc, &layout, of, setting)?;
    Ok(past)
}
