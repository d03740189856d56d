//! The first fault of members.

ghost use Rattle.std.specs.Prelude.{◌≡◌, length, map, IfOk};
ghost use Rattle.type_members.specs.osc_base.FaultRows.{first_fault};
ghost use Rattle.type_members.specs.type_heads.Bodied.{seen_body};
ghost use Rattle.type_members.specs.type_heads.MemberFaults.{member_fault_rows};
ghost use Rattle.type_members.specs.type_heads.Types.{Types};
ghost use Rattle.type_members.specs.Listed.{lists_of, seen_row};
ghost use Rattle.member_faults.specs.ListedRows.{types_with};
ghost use Rattle.member_faults.specs.NamePlaces.{AreRowPlaces};

use crate::declared::with_types;
use crate::depends_on::DependsOn;
use crate::name_places::{NamePlaces, row_places};
use osc_base::Fault;
use std::alloc::{AllocError, Global};
use type_heads::{Body, Heads};
use type_members::MemberLists;

/// The first fault of the members of all types, given the places of the names in each row.
fn first_by_places(
    alloc: Global,
    heads: &Heads,
    bodies: &[Body<'_>],
    lists: &MemberLists<'_>,
    places: &[NamePlaces<'_>],
) -> Result<Option<Fault>, AllocError>
    requires count { length (lists_of lists.now) ≡ length heads.now }
    requires places { AreRowPlaces places.now (map seen_row lists.now.rows.items) }
    ensures { IfOk result (λ f. f ≡ first_fault (member_fault_rows (types_with heads.now (map seen_body bodies.now) (lists_of lists.now)))) }
{
    let depends = DependsOn {
        alloc,
        heads,
        bodies,
        lists,
        places,
    };
    let found = with_types(alloc, None, &depends)?;
    Ok(found)
}

/// The first fault of the members of all types: names that a member list has twice, `do` at a place that can't have
/// one, initial values of a wrong form, and conditions. There is a member list for each type.
pub fn first_member_fault(
    alloc: Global,
    heads: &Heads,
    bodies: &[Body<'_>],
    lists: &MemberLists<'_>,
) -> Result<Option<Fault>, AllocError>
    requires { length (lists_of lists.now) ≡ length heads.now }
    ensures { IfOk result (λ f. (ts : Types) → ts.table.heads ≡ heads.now → ts.bodies ≡ map seen_body bodies.now → ts.members ≡ lists_of lists.now → f ≡ first_fault (member_fault_rows ts)) }
{
    let places = row_places(alloc, lists.rows())?;
    let found = first_by_places(alloc, heads, bodies, lists, places.as_slice())?;
    Ok(found)
}
