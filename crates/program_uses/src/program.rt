//! The first fault of uses of a program.

ghost use Rattle.std.specs.Prelude.{◌≡◌, None, IfOk};
ghost use Rattle.program_calls.specs.composition.Uses.{use_rows};
ghost use Rattle.name_scope.specs.FileNumbers.{wanted_name};
ghost use Rattle.osc_base.specs.FaultRows.{first_fault};
ghost use Rattle.expr_nodes.specs.type_heads.DeclaredTypes.{program_of, types_of};
ghost use Rattle.expr_nodes.specs.type_heads.Told.{told};

use crate::used::first_use_fault;
use expr_nodes::Types;
use name_scope::Program;
use osc_base::Fault;
use program_members::ProgramMembers;
use std::alloc::{AllocError, Global};

/// The first fault of uses of all declarations, used or not, by file, token and code. `None` exactly when there is none.
///
/// Each file that the program imports was added, and `types` are those that were built of the program.
pub fn uses(alloc: Global, program: &Program, types: &Types) -> Result<Option<Fault>, AllocError>
    requires whole { wanted_name program.now ≡ None }
    requires built { types.now ≡ told (types_of (program_of program.now)) }
    ensures { IfOk result (λ f. f ≡ first_fault (use_rows (types_of (program_of program.now)))) }
{
    let members = ProgramMembers::of(alloc, program)?;
    let bodies = members.bodies.as_slice();
    first_use_fault(alloc, types, members.library, bodies, &members.lists)
}
