//! The types of a program whose declarations have no fault.

ghost use Rattle.std.specs.Prelude.{◌≡◌, IfOk, IfErr, Some, None};
ghost use Rattle.name_scope.specs.FileNumbers.{wanted_name};
ghost use Rattle.osc_base.specs.declared.fault.Fault.{Fault};
ghost use Rattle.osc_base.specs.declared.stop.Stop.{Stop};
ghost use Rattle.program_uses.specs.type_heads.Told.{told};
ghost use Rattle.named_scenario.specs.Naming.{fault_in, types_in};

use name_scope::Program;
use osc_base::{Fault, Stop};
use program_uses::{Types, uses};
use std::alloc::Global;
use type_build::build_types;

/// The types of a program all of whose files were added, or the first fault of its declarations: of headings, else of members,
/// else of uses.
pub fn sound_types(alloc: Global, program: &Program) -> Result<Types, Stop<Fault>>
    requires whole { wanted_name program.now ≡ None }
    ensures types { IfOk result (λ types. types ≡ told (types_in program.now)) }
    ensures sound { IfOk result (λ _. fault_in program.now ≡ None) }
    ensures fault { IfErr result (λ stop. (f : Fault) → stop ≡ Stop.At f → fault_in program.now ≡ Some f) }
{
    let types = build_types(alloc, program)?;
    match uses(alloc, program, &types)? {
        Some(fault) => Err(Stop::At(fault)),
        None => Ok(types),
    }
}
