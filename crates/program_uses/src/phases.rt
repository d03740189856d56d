//! The faults of the phases of a `do`.

ghost use Rattle.std.specs.Prelude.{◌≡◌, None, flat_map, map, IfOk};
ghost use Rattle.osc_base.specs.FaultRows.{first_from};
ghost use Rattle.dsl_tree.specs.declared.phases.Phase.{Phase as PhaseOf};
ghost use Rattle.dsl_tree.specs.Views.{phase_tree};
ghost use Rattle.expr_nodes.specs.type_heads.Types.{Types as TypesOf};
ghost use Rattle.expr_nodes.specs.SeenNames.{seen_scope};
ghost use Rattle.program_calls.specs.composition.Calls.{phases_in as all_phases};
ghost use Rattle.program_calls.specs.composition.Uses.{phase_rows};
ghost use Rattle.program_calls.specs.PlacedPhases.{seen_phase, seen_turn};
ghost use Rattle.program_calls.specs.SeenLabels.{do_labels, seen_labels};
ghost use Rattle.program_uses.specs.PhaseRows.{phase_in, placed_rows};
ghost use Rattle.program_uses.specs.SeenTexts.{Tells};

use crate::calls::{it_made, with_call, with_callee, with_parts};
use crate::compositions::{with_composition, with_whole_duration};
use crate::program_texts::ProgramTexts;
use dsl_tree::{InvokeNode, Phase};
use expr_nodes::{LabelTable, Scope, TypeId, Types};
use osc_base::Fault;
use program_calls::{PlacedPhase, invoked, phases_in, scope_at};
use std::alloc::{AllocError, Global};

/// Faults of an invocation. The scope is that of its arguments.
fn with_invocation<'a>(
    alloc: Global,
    types: &Types,
    texts: &ProgramTexts<'a>,
    scope: &Scope<'_>,
    first: Option<Fault>,
    invocation: &'a InvokeNode,
) -> Result<Option<Fault>, AllocError>
    ensures { IfOk result (λ f. (ts : TypesOf) → Tells ts types.now texts.now → f ≡ first_from first (phase_in ts (seen_scope scope.now) (phase_tree (PhaseOf.Invoke invocation.entry.now)))) }
{
    let of = invoked(alloc, types, scope.holder, invocation)?;
    let names = invocation.names.as_slice();
    let called = with_callee(alloc, types, scope, first, &invocation.head, names)?;
    let arguments = invocation.arguments.as_slice();
    let given = with_call(alloc, types, texts, scope, called, &of, arguments)?;
    let own = Scope {
        holder: scope.holder,
        it: Some(it_made(&of)),
        labels: scope.labels,
        way: scope.way,
    };
    let parts = invocation.parts.as_slice();
    with_parts(alloc, types, texts.library, &own, given, &of, parts)
}

/// Faults of a phase, without the phases in it.
fn with_phase<'a>(
    alloc: Global,
    types: &Types,
    texts: &ProgramTexts<'a>,
    scope: &Scope<'_>,
    first: Option<Fault>,
    phase: &'a Phase,
) -> Result<Option<Fault>, AllocError>
    ensures { IfOk result (λ f. (ts : TypesOf) → Tells ts types.now texts.now → f ≡ first_from first (phase_in ts (seen_scope scope.now) (phase_tree phase.entry.now))) }
{
    match phase {
        Phase::Comp(comp) => {
            let arguments = comp.arguments.as_slice();
            with_composition(alloc, types, scope, first, comp.kind, arguments)
        }
        Phase::Wait(wait) => with_whole_duration(alloc, types, scope, first, &wait.elapsed),
        Phase::Invoke(invocation) => {
            with_invocation(alloc, types, texts, scope, first, invocation)
        }
    }
}

/// Faults of a phase in the text of a type. The labels are those of the type's `do`.
fn with_placed<'a>(
    alloc: Global,
    types: &Types,
    texts: &ProgramTexts<'a>,
    labels: &LabelTable,
    holder: TypeId,
    first: Option<Fault>,
    placed: &PlacedPhase<'a>,
) -> Result<Option<Fault>, AllocError>
    ensures { IfOk result (λ f. (ts : TypesOf) → Tells ts types.now texts.now → seen_labels labels.now ≡ do_labels ts holder → f ≡ first_from first (phase_rows ts holder (map seen_turn placed.now.place.way) (phase_tree placed.now.phase.now))) }
{
    let way = placed.place.way.as_slice();
    let scope = scope_at(holder, None, labels, way);
    with_phase(alloc, types, texts, &scope, first, placed.phase)
}

/// Faults of the phases of a `do` in the text of a type.
pub(crate) fn with_phases<'a>(
    alloc: Global,
    types: &Types,
    texts: &ProgramTexts<'a>,
    labels: &LabelTable,
    holder: TypeId,
    first: Option<Fault>,
    phase: &'a Phase,
) -> Result<Option<Fault>, AllocError>
    ensures { IfOk result (λ f. (ts : TypesOf) → Tells ts types.now texts.now → seen_labels labels.now ≡ do_labels ts holder → f ≡ first_from first (flat_map (placed_rows ts holder) (all_phases (phase_tree phase.entry.now)))) }
{
    let phases = phases_in(alloc, phase)?;
    let mut fault = first;
    for placed in phases.as_slice() {
        fault = with_placed(alloc, types, texts, labels, holder, fault, placed)?;
    }
    Ok(fault)
}
