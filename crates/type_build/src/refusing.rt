//! The faults for which no types are built.

ghost use Rattle.std.specs.Prelude.{◌≡◌, Some, None, length, map, IfErr, OnOk};
ghost use Rattle.type_model.specs.osc_base.FaultRows.{first_fault};
ghost use Rattle.type_model.specs.osc_base.declared.fault.Fault.{Fault};
ghost use Rattle.type_model.specs.osc_base.declared.stop.Stop.{Stop};
ghost use Rattle.type_model.specs.type_heads.Bodied.{seen_body};
ghost use Rattle.type_model.specs.type_heads.Gathered.{AreGathered, all_of};
ghost use Rattle.type_model.specs.type_heads.HeadsGrouped.{all_heads};
ghost use Rattle.type_model.specs.type_heads.MemberFaults.{member_fault_rows};
ghost use Rattle.type_model.specs.type_heads.Types.{Types};
ghost use Rattle.type_model.specs.type_members.Listed.{lists_of};
ghost use Rattle.type_model.specs.Built.{AreBodies};
ghost use Rattle.type_build.specs.Sound.{HeadingsAreSound, IsHeadingFault, MembersAreSound, IsMemberFault};

use crate::BuildStop;
use heading_faults::first_heading_fault;
use member_faults::first_member_fault;
use osc_base::{Fault, Stop};
use std::alloc::Global;
use type_heads::{Body, Declarations, Heads};
use type_model::{Bodies, MemberLists};

/// Stops at a fault, if there is one.
fn refuse(found: Option<Fault>) -> Result<(), BuildStop>
    ensures sound { OnOk result (found ≡ None) }
    ensures fault { IfErr result (λ stop. (f : Fault) → stop ≡ Stop.At f → found ≡ Some f) }
{
    match found {
        Some(fault) => Err(Stop::At(fault)),
        None => Ok(()),
    }
}

/// Stops at the first fault of headings.
pub fn refuse_headings(
    alloc: Global,
    declarations: &Declarations<'_>,
    heads: &Heads,
    bodies: &Bodies<'_>,
) -> Result<(), BuildStop>
    requires gathered { AreGathered declarations.now }
    requires same_heads { heads.now ≡ all_heads (all_of declarations.now) }
    requires same_bodies { AreBodies (all_of declarations.now) heads.now bodies.now }
    ensures sound { OnOk result (HeadingsAreSound (all_of declarations.now)) }
    ensures fault { IfErr result (λ stop. (f : Fault) → stop ≡ Stop.At f → IsHeadingFault (all_of declarations.now) f) }
{
    let found = first_heading_fault(
        alloc,
        declarations,
        heads,
        bodies.entries.as_slice(),
        &bodies.subtypes,
    )?;
    refuse(found)
}

/// Stops at the first fault of members.
pub fn refuse_members(
    alloc: Global,
    heads: &Heads,
    bodies: &[Body<'_>],
    lists: &MemberLists<'_>,
) -> Result<(), BuildStop>
    requires { length (lists_of lists.now) ≡ length heads.now }
    ensures sound { OnOk result (MembersAreSound heads.now (map seen_body bodies.now) (lists_of lists.now)) }
    ensures fault { IfErr result (λ stop. (f : Fault) → stop ≡ Stop.At f → IsMemberFault heads.now (map seen_body bodies.now) (lists_of lists.now) f) }
{
    let found = first_member_fault(alloc, heads, bodies, lists)?;
    refuse(found)
}
