//! Why a program that was loaded is refused.

ghost use Rattle.std.specs.Prelude.{◌≡◌, ◌≢◌, [], ℕ, List, IfOk, Some, option_map};
ghost use Rattle.command_replies.specs.Replies.{fault_of, refused_source};
ghost use Rattle.name_scope.specs.Declaring.{behaviour_name};
ghost use Rattle.loaded_programs.specs.program_load.Loading.{name_at};
ghost use Rattle.source_scenes.specs.Programs.{no_scenario};

use command_replies::{Reply, fault};
use dsl_tree::CompoundDecl;
use name_scope::Program;
use osc_base::{Fault, FaultCode, Place};
use std::alloc::{AllocError, Global};

/// The reply to a fault in one of a program's files.
pub fn fault_in(alloc: Global, program: &Program, first: Fault) -> Result<Reply, AllocError>
    ensures { IfOk result (λ reply. reply ≡ fault_of (name_at program.now first.place.file) first) }
{
    let name = program.name(first.place.file).unwrap_or("");
    fault(alloc, name, first)
}

/// Where the name of a scenario stands that a declaration declares.
pub fn name_place(declaration: &CompoundDecl) -> Place
    ensures { result ≡ (behaviour_name declaration.now.name.first declaration.now.name.second).place }
{
    match &declaration.name.second {
        Some(name) => name.place,
        None => declaration.name.first.place,
    }
}

/// The reply to a program without the named scenario: the fault stands at the end of its main file.
pub fn no_scenario(alloc: Global, program: &Program) -> Result<Reply, AllocError>
    requires { program.now ≢ [] }
    ensures { IfOk result (λ reply. (main : List ℕ) → option_map (refused_source main) (no_scenario program.now) ≡ Some reply) }
{
    let Some(name) = program.name(0) else {
        unreachable!()
    };
    let Some(main) = program.file(0) else {
        unreachable!()
    };
    let (place, code) = (main.end, FaultCode::NoScenario);
    fault(alloc, name, Fault { place, code })
}
