//! Ranks that show which conditional subtypes don't depend on themselves.
//!
//! A near step leads to the base of a type, and not to all bases. So the ranks of a chain of types cost one walk along it.

ghost use Rattle.std.specs.Prelude.{◌≡◌, ◌++◌, length, map, IfOk, OnOk};
ghost use Rattle.type_members.specs.type_heads.Bodied.{seen_body};
ghost use Rattle.type_members.specs.type_heads.MemberFaults.{depends_on};
ghost use Rattle.type_members.specs.Listed.{lists_of};
ghost use Rattle.member_faults.specs.ListedRows.{near_depended, types_with};
ghost use Rattle.fault_sets.specs.Ranking.{IsShown};

use crate::depends::push_near;
use crate::depends_on::DependsOn;
use fault_sets::{Ranking, Steps};
use std::alloc::{AllocError, Global};
use type_heads::TypeId;

/// The types of a program, with steps from a type to its base, and to the conditional subtypes that the field of its
/// condition is under.
#[derive(Drop)]
pub struct NearDepended<'d, 'h> {
    pub depends: &'d DependsOn<'h>,
}

impl<'d, 'h> Steps for NearDepended<'d, 'h> {
    ghost next = { λ n t. near_depended n.depends.now.heads.now (map seen_body n.depends.now.bodies.now) (lists_of n.depends.now.lists.now) t };

    fn push_next(&self, of: TypeId, into: &mut Vec<TypeId>) -> Result<(), AllocError>
        ensures { OnOk result (into.new.items ≡ into.old.items ++ near_depended self.now.depends.now.heads.now (map seen_body self.now.depends.now.bodies.now) (lists_of self.now.depends.now.lists.now) of) }
    {
        let depends = self.depends;
        push_near(
            depends.heads,
            depends.bodies,
            depends.lists,
            depends.places,
            of,
            into,
        )
    }
}

/// Ranks by which it is seen that a conditional subtype doesn't depend on itself. They are those of near steps.
pub fn near_ranking(alloc: Global, depends: &DependsOn<'_>) -> Result<Ranking, AllocError>
    ensures { IfOk result (IsShown (length depends.now.heads.now) (depends_on (types_with depends.now.heads.now (map seen_body depends.now.bodies.now) (lists_of depends.now.lists.now)))) }
{
    let near = NearDepended { depends };
    Ranking::of(alloc, &near, depends.heads.count())
}
