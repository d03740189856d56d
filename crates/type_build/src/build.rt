//! Building the types of a program.

ghost use Rattle.std.specs.Prelude.{◌≡◌, IfErr, IfOk, Some, None, map};
ghost use Rattle.std.specs.Option.{option_or};
ghost use Rattle.type_model.specs.osc_base.FaultRows.{first_fault};
ghost use Rattle.type_model.specs.osc_base.declared.fault.Fault.{Fault};
ghost use Rattle.type_model.specs.osc_base.declared.stop.Stop.{Stop};
ghost use Rattle.type_model.specs.type_heads.Bodied.{seen_body};
ghost use Rattle.type_model.specs.type_heads.DeclaredTypes.{program_of, types_of};
ghost use Rattle.type_model.specs.type_heads.Gathered.{AreGathered, all_of};
ghost use Rattle.type_model.specs.type_heads.HeadingFaults.{heading_rows};
ghost use Rattle.type_model.specs.type_heads.HeadsGrouped.{all_heads};
ghost use Rattle.type_model.specs.type_heads.MemberFaults.{member_fault_rows};
ghost use Rattle.type_model.specs.type_heads.Members.{members_of};
ghost use Rattle.type_model.specs.type_heads.Table.{all_types};
ghost use Rattle.type_model.specs.type_heads.Told.{told};
ghost use Rattle.type_model.specs.type_members.Listed.{lists_of};
ghost use Rattle.type_model.specs.Built.{AreBodies};
ghost use Rattle.type_build.specs.Sound.{AreOfProgram, AreTold, AreTypes, HeadingsAreSound, IsFirstFault};

use crate::refusing::{refuse_headings, refuse_members};
use name_scope::Program;
use osc_base::{Fault, Stop};
use std::alloc::{AllocError, Global};
use type_heads::{Declarations, Heads};
use type_model::{Bodies, MemberLists, MemberTables, ProgramTables, Types};

/// Why no types were built: the first fault of headings, else of members; or out of memory.
pub type BuildStop = Stop<Fault>;

/// The types with these heads, bodies and members.
fn with_members(
    alloc: Global,
    declarations: &Declarations<'_>,
    heads: Heads,
    bodies: &Bodies<'_>,
    lists: &MemberLists<'_>,
) -> Result<Types, AllocError>
    requires sound { HeadingsAreSound (all_of declarations.now) }
    requires program { AreOfProgram (all_of declarations.now) }
    requires same_heads { heads ≡ all_heads (all_of declarations.now) }
    requires same_bodies { AreBodies (all_of declarations.now) heads bodies.now }
    requires same_members { lists_of lists.now ≡ map (members_of heads (map seen_body bodies.now.entries.items)) (all_types heads) }
    ensures { IfOk result (AreTold (all_of declarations.now)) }
{
    let of_members = MemberTables::of(alloc, &heads, bodies.entries.as_slice(), lists)?;
    let of_program = ProgramTables::of(alloc, declarations, &heads)?;
    Ok(Types::of(heads, of_members, of_program))
}

/// The types with these heads and bodies.
fn with_bodies(
    alloc: Global,
    declarations: &Declarations<'_>,
    heads: Heads,
    bodies: &Bodies<'_>,
) -> Result<Types, BuildStop>
    requires sound { HeadingsAreSound (all_of declarations.now) }
    requires program { AreOfProgram (all_of declarations.now) }
    requires same_heads { heads ≡ all_heads (all_of declarations.now) }
    requires same_bodies { AreBodies (all_of declarations.now) heads bodies.now }
    ensures types { IfOk result (AreTypes (all_of declarations.now)) }
    ensures fault { IfErr result (λ stop. (f : Fault) → stop ≡ Stop.At f → IsFirstFault (all_of declarations.now) f) }
{
    let entries = bodies.entries.as_slice();
    let lists = MemberLists::build(alloc, &heads, entries, &bodies.subtypes)?;
    refuse_members(alloc, &heads, entries, &lists)?;
    let types = with_members(alloc, declarations, heads, bodies, &lists)?;
    Ok(types)
}

/// The types with these heads.
fn with_heads(
    alloc: Global,
    declarations: &Declarations<'_>,
    heads: Heads,
) -> Result<Types, BuildStop>
    requires gathered { AreGathered declarations.now }
    requires program { AreOfProgram (all_of declarations.now) }
    requires same_heads { heads ≡ all_heads (all_of declarations.now) }
    ensures types { IfOk result (AreTypes (all_of declarations.now)) }
    ensures fault { IfErr result (λ stop. (f : Fault) → stop ≡ Stop.At f → IsFirstFault (all_of declarations.now) f) }
{
    let bodies = Bodies::of(alloc, declarations, &heads)?;
    refuse_headings(alloc, declarations, &heads, &bodies)?;
    with_bodies(alloc, declarations, heads, &bodies)
}

/// The types of a program.
///
/// `At` comes exactly when the program has a fault of headings or of members.
pub fn build_types(alloc: Global, program: &Program) -> Result<Types, BuildStop>
    ensures types { IfOk result (λ types. types ≡ told (types_of (program_of program.now))) }
    ensures sound { IfOk result (λ types. (first_fault (heading_rows (program_of program.now) (types_of (program_of program.now))) ≡ None) × (first_fault (member_fault_rows (types_of (program_of program.now))) ≡ None)) }
    ensures fault { IfErr result (λ stop. (f : Fault) → stop ≡ Stop.At f → option_or (first_fault (heading_rows (program_of program.now) (types_of (program_of program.now)))) (first_fault (member_fault_rows (types_of (program_of program.now)))) ≡ Some f) }
{
    let declarations = Declarations::of(alloc, program)?;
    let heads = Heads::of(alloc, &declarations)?;
    with_heads(alloc, &declarations, heads)
}
