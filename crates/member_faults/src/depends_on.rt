//! Steps from a conditional subtype to those on which it depends.

ghost use Rattle.std.specs.Prelude.{◌≡◌, ◌++◌, map, OnOk};
ghost use Rattle.type_members.specs.type_heads.Bodied.{seen_body};
ghost use Rattle.type_members.specs.type_heads.MemberFaults.{depends_on};
ghost use Rattle.type_members.specs.Listed.{lists_of, seen_row};
ghost use Rattle.member_faults.specs.ListedRows.{types_with};
ghost use Rattle.member_faults.specs.NamePlaces.{AreRowPlaces};

use crate::depends::push_depended;
use crate::name_places::NamePlaces;
use fault_sets::Steps;
use std::alloc::{AllocError, Global};
use type_heads::{Body, Heads, TypeId};
use type_members::MemberLists;

/// The types of a program, with steps from a conditional subtype to those on which it depends.
#[derive(Drop)]
pub struct DependsOn<'h> {
    pub alloc: Global,
    pub heads: &'h Heads,
    pub bodies: &'h [Body<'h>],
    pub lists: &'h MemberLists<'h>,
    pub places: &'h [NamePlaces<'h>],
    ghost placed: { AreRowPlaces places.now (map seen_row lists.now.rows.items) },
}

impl<'h> Steps for DependsOn<'h> {
    ghost next = { λ d t. depends_on (types_with d.heads.now (map seen_body d.bodies.now) (lists_of d.lists.now)) t };

    fn push_next(&self, of: TypeId, into: &mut Vec<TypeId>) -> Result<(), AllocError>
        ensures { OnOk result (into.new.items ≡ into.old.items ++ depends_on (types_with self.now.heads.now (map seen_body self.now.bodies.now) (lists_of self.now.lists.now)) of) }
    {
        push_depended(
            self.alloc,
            self.heads,
            self.bodies,
            self.lists,
            self.places,
            of,
            into,
        )
    }
}
