//! The scenario of a name.

ghost use Rattle.std.specs.Prelude.{◌≡◌, cond, IfOk, IfErr, Some, None, option_and_then, option_copied};
ghost use Rattle.name_scope.specs.FileNumbers.{wanted_name};
ghost use Rattle.program_uses.specs.type_heads.Table.{form, is_scenario, named};
ghost use Rattle.program_uses.specs.type_heads.Told.{told};
ghost use Rattle.named_scenario.specs.Found.{IsNamed, IsNoName};
ghost use Rattle.named_scenario.specs.Naming.{fault_in, types_in};

use crate::declared::declared_scenario;
use crate::sound::sound_types;
use dsl_tree::CompoundDecl;
use name_scope::Program;
use osc_base::{Fault, Stop};
use program_uses::{TypeId, TypeKind, Types};
use std::alloc::Global;

/// A scenario of a program whose declarations have no fault, with the program's types.
#[derive(Drop)]
pub struct NamedScenario<'a> {
    pub types: Types,
    pub id: TypeId,
    pub declaration: &'a CompoundDecl,
}

/// Why no scenario is named.
pub enum NameStop {
    /// The first fault of the program's declarations: of headings, else of members, else of uses.
    At(Fault),
    /// The declarations have no fault, and none is of a scenario of that name.
    Absent,
    /// Out of memory.
    Memory,
}

/// The scenario of that name, in a program all of whose files were added. Only a scenario that is asked for with its owner has one.
pub fn find_scenario<'a>(
    alloc: Global,
    program: &'a Program,
    owner: Option<&str>,
    name: &str,
) -> Result<NamedScenario<'a>, NameStop>
    requires whole { wanted_name program.now ≡ None }
    ensures named { IfOk result (IsNamed program.now (option_copied owner.entry) name.now) }
    ensures stop { IfErr result (IsNoName program.now (option_copied owner.entry) name.now) }
{
    match sound_types(alloc, program) {
        Ok(types) => named_in(program, types, owner, name),
        Err(Stop::At(fault)) => Err(NameStop::At(fault)),
        Err(Stop::Memory) => Err(NameStop::Memory),
    }
}

/// The scenario of that name among the types of a program whose declarations have no fault.
fn named_in<'a>(
    program: &'a Program,
    types: Types,
    owner: Option<&str>,
    name: &str,
) -> Result<NamedScenario<'a>, NameStop>
    requires types { types ≡ told (types_in program.now) }
    requires sound { fault_in program.now ≡ None }
    ensures named { IfOk result (IsNamed program.now (option_copied owner.entry) name.now) }
    ensures stop { IfErr result (IsNoName program.now (option_copied owner.entry) name.now) }
{
    let Some(id) = scenario_type(&types, owner, name) else {
        return Err(NameStop::Absent);
    };
    match declared_scenario(program, owner, name) {
        Some(declaration) => Ok(NamedScenario {
            types,
            id,
            declaration,
        }),
        None => unreachable!("a scenario has a declaration"),
    }
}

/// The type of that name, if it is a scenario.
fn scenario_type(types: &Types, owner: Option<&str>, name: &str) -> Option<TypeId>
    ensures { result ≡ option_and_then (λ t. cond (is_scenario (form types.now.table.heads t)) (Some t) None) (named types.now.table.heads (option_copied owner.entry) name.now) }
{
    let id = types.named(owner, name)?;
    match types.kind(id) {
        TypeKind::Scenario => Some(id),
        _ => None,
    }
}
