//! Steps from a type to the types that it holds.

ghost use Rattle.std.specs.Prelude.{◌≡◌, ◌++◌, map, OnOk};
ghost use Rattle.type_members.specs.type_heads.Bodied.{seen_body};
ghost use Rattle.type_members.specs.type_heads.HeadingFaults.{held_types};
ghost use Rattle.type_members.specs.Listed.{AreSubtypes};

use crate::held::push_held;
use fault_sets::Steps;
use std::alloc::{AllocError, Global};
use type_heads::{Body, Heads, TypeId};
use type_members::Subtypes;

/// Steps from a type to the types that it holds, with the conditional subtypes of all types.
#[derive(Drop)]
pub struct HeldTypes<'h> {
    pub alloc: Global,
    pub heads: &'h Heads,
    pub bodies: &'h [Body<'h>],
    pub subtypes: &'h Subtypes,
    ghost same: { AreSubtypes heads.now (map seen_body bodies.now) subtypes.now },
}

impl<'h> Steps for HeldTypes<'h> {
    ghost next = { λ h t. held_types h.heads.now (map seen_body h.bodies.now) t };

    fn push_next(&self, of: TypeId, into: &mut Vec<TypeId>) -> Result<(), AllocError>
        ensures { OnOk result (into.new.items ≡ into.old.items ++ held_types self.now.heads.now (map seen_body self.now.bodies.now) of) }
    {
        push_held(self.alloc, self.heads, self.bodies, self.subtypes, of, into)
    }
}
