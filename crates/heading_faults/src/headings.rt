//! The first fault of headings.

ghost use Rattle.std.specs.Prelude.{◌≡◌, map, IfOk};
ghost use Rattle.type_members.specs.osc_base.FaultRows.{first_fault};
ghost use Rattle.type_members.specs.type_heads.Bodied.{all_bodies, seen_body};
ghost use Rattle.type_members.specs.type_heads.DeclaredTypes.{placed, types_of};
ghost use Rattle.type_members.specs.type_heads.Gathered.{AreGathered, all_of};
ghost use Rattle.type_members.specs.type_heads.HeadingFaults.{heading_rows};
ghost use Rattle.type_members.specs.type_heads.HeadsGrouped.{all_heads};
ghost use Rattle.type_members.specs.type_heads.Types.{Program};
ghost use Rattle.type_members.specs.Listed.{AreSubtypes};

use crate::cycles::with_cycles;
use crate::declared::first_name_fault;
use crate::held_types::HeldTypes;
use osc_base::Fault;
use std::alloc::{AllocError, Global};
use type_heads::{Body, Declarations, Heads};
use type_members::Subtypes;

/// The first fault of the headings of a program: names that are declared twice or not at all, types that depend on
/// themselves, and names of a wrong kind. The declarations, heads, bodies and conditional subtypes are those of the
/// program.
pub fn first_heading_fault(
    alloc: Global,
    declarations: &Declarations<'_>,
    heads: &Heads,
    bodies: &[Body<'_>],
    subtypes: &Subtypes,
) -> Result<Option<Fault>, AllocError>
    requires gathered { AreGathered declarations.now }
    requires same_heads { heads.now ≡ all_heads (all_of declarations.now) }
    requires same_bodies { map seen_body bodies.now ≡ all_bodies (all_of declarations.now) }
    requires same_subtypes { AreSubtypes heads.now (map seen_body bodies.now) subtypes.now }
    ensures { IfOk result (λ f. (p : Program) → all_of declarations.now ≡ placed p → f ≡ first_fault (heading_rows p (types_of p))) }
{
    let first = first_name_fault(alloc, declarations, heads)?;
    let held = HeldTypes {
        alloc,
        heads,
        bodies,
        subtypes,
    };
    let found = with_cycles(alloc, first, &held)?;
    Ok(found)
}
