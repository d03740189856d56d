//! The bindings that a work makes.

ghost use Rattle.std.specs.Prelude.{◌≡◌, ◌++◌, map, OnOk};
ghost use Rattle.object_works.specs.composition.SeenParts.{seen_binding};
ghost use Rattle.object_works.specs.expansion_laws.WorkNodes.{node_of};
ghost use Rattle.object_works.specs.scene_expansion.SeenWorks.{seen_work};
ghost use Rattle.object_works.specs.type_heads.Types.{Types};

use object_works::{Binding, Work, copy_binding};
use osc_base::Row;
use std::alloc::{AllocError, Global};

/// Puts copies of bindings at the end.
fn push_copies(
    alloc: Global,
    bindings: &mut Row<Binding>,
    more: &[Binding],
) -> Result<(), AllocError>
    ensures { OnOk result (map seen_binding bindings.new ≡ map seen_binding bindings.old ++ map seen_binding more.now) }
{
    for binding in more {
        bindings.push(copy_binding(alloc, binding)?)?;
    }
    Ok(())
}

/// Puts the bindings that a work makes at the end. Only an invocation makes any.
pub fn push_bindings(
    alloc: Global,
    bindings: &mut Row<Binding>,
    work: &Work<'_>,
) -> Result<(), AllocError>
    ensures { OnOk result ((ts : Types) → map seen_binding bindings.new ≡ map seen_binding bindings.old ++ (node_of ts (seen_work work.now)).bindings) }
{
    match work {
        Work::Invoke { bindings: made, .. } => push_copies(alloc, bindings, made.as_slice()),
        Work::Object { .. } | Work::Value { .. } | Work::Comp { .. } | Work::Wait { .. } => Ok(()),
    }
}
