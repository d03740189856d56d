//! Scenarios that invoke themselves through others.

ghost use Rattle.std.specs.Prelude.{◌≡◌, ◌&&◌, ◌++◌, IfOk, OnOk, length, map, option_map};
ghost use Rattle.osc_base.specs.FaultRows.{first_from};
ghost use Rattle.dsl_tree.specs.Views.{phase_tree};
ghost use Rattle.expr_nodes.specs.type_heads.Cycles.{returns};
ghost use Rattle.expr_nodes.specs.type_heads.Shown.{kind_form};
ghost use Rattle.expr_nodes.specs.type_heads.Table.{all_types, form, is_scenario as of_scenario};
ghost use Rattle.expr_nodes.specs.type_heads.Types.{Types as TypesOf};
ghost use Rattle.fault_sets.specs.Ranking.{IsShown};
ghost use Rattle.program_calls.specs.composition.Uses.{invocation_row, invocations};
ghost use Rattle.program_calls.specs.PlacedPhases.{seen_phase};
ghost use Rattle.program_uses.specs.InvokedTypes.{AreInvoked, invoked_at, invoked_in, invoked_do, row_of};
ghost use Rattle.program_fields.specs.SeenFields.{seen_do};
ghost use Rattle.program_uses.specs.SeenTexts.{Tells};

use crate::program_texts::ProgramTexts;
use dsl_tree::Phase;
use expr_nodes::{TypeId, TypeKind, Types};
use fault_sets::{Ranking, Steps};
use name_scope::with_fault;
use osc_base::{Fault, FaultCode, Row};
use program_calls::{PlacedPhase, invoked, phases_in};
use program_fields::TypeDo;
use std::alloc::{AllocError, Global};

/// The actions and scenarios that the `do` of each type invokes.
#[derive(Drop)]
struct Invoked {
    rows: Vec<Row<TypeId>>,
}

impl Steps for Invoked {
    ghost use Rattle.std.specs.Prelude.{slice_index_or, []};

    ghost next = { λ s t. slice_index_or s.rows.items t [] };

    fn push_next(&self, of: TypeId, into: &mut Vec<TypeId>) -> Result<(), AllocError>
        ensures { OnOk result (into.new.items ≡ into.old.items ++ slice_index_or self.now.rows.items of []) }
    {
        match self.rows.get(of.0 as usize) {
            Some(row) => into.extend_from_slice(row.as_slice()),
            None => Ok(()),
        }
    }
}

/// The action or scenario that a phase in the text of a type invokes, without the phases in it.
fn invoked_by(
    alloc: Global,
    types: &Types,
    holder: TypeId,
    phase: &Phase,
) -> Result<Option<TypeId>, AllocError>
    ensures { IfOk result (λ of. of ≡ invoked_at types.now.table holder (phase_tree phase.now)) }
{
    match phase {
        Phase::Comp(_) | Phase::Wait(_) => Ok(None),
        Phase::Invoke(invocation) => invoked(alloc, types, holder, invocation),
    }
}

/// The actions and scenarios that phases in the text of a type invoke.
fn invoked_by_phases(
    alloc: Global,
    types: &Types,
    holder: TypeId,
    phases: &[PlacedPhase<'_>],
) -> Result<Row<TypeId>, AllocError>
    ensures { IfOk result (λ all. all ≡ invoked_in types.now.table holder (map seen_phase phases.now)) }
{
    let mut all = Row::new(alloc);
    for placed in phases {
        if let Some(of) = invoked_by(alloc, types, holder, placed.phase)? {
            all.push(of)?;
        }
    }
    Ok(all)
}

/// The actions and scenarios that a `do` invokes.
fn invoked_by_do(
    alloc: Global,
    types: &Types,
    found: Option<TypeDo<'_>>,
) -> Result<Row<TypeId>, AllocError>
    ensures { IfOk result (λ all. all ≡ invoked_do types.now.table (option_map seen_do found.entry)) }
{
    match found {
        Some(found) => {
            let phases = phases_in(alloc, found.phase)?;
            invoked_by_phases(alloc, types, TypeId(found.holder), phases.as_slice())
        }
        None => Ok(Row::new(alloc)),
    }
}

/// The actions and scenarios that each `do` invokes.
fn all_invoked(
    alloc: Global,
    types: &Types,
    dos: &[Option<TypeDo<'_>>],
) -> Result<Vec<Row<TypeId>>, AllocError>
    ensures { IfOk result (λ rows. rows.items ≡ map (λ d. invoked_do types.now.table (option_map seen_do d)) dos.now) }
{
    let mut rows = Vec::new(alloc);
    for found in dos {
        rows.push(invoked_by_do(alloc, types, *found)?)?;
    }
    Ok(rows)
}

fn is_scenario(kind: TypeKind) -> bool
    ensures { result ≡ of_scenario (kind_form kind) }
{
    match kind {
        TypeKind::Scenario => true,
        TypeKind::Int
        | TypeKind::Uint
        | TypeKind::Float
        | TypeKind::Bool
        | TypeKind::Chars
        | TypeKind::Physical(_)
        | TypeKind::Enum
        | TypeKind::Struct
        | TypeKind::Actor
        | TypeKind::Action => false,
    }
}

/// Whether a type is a scenario that invokes itself through others. The ranking is that of the invocations.
fn invokes_itself(
    alloc: Global,
    types: &Types,
    ranking: &Ranking,
    invoked: &Invoked,
    of: TypeId,
) -> Result<bool, AllocError>
    requires { IsShown (length types.now.table.heads) (row_of invoked.now) ranking.now }
    ensures { IfOk result (λ b. b ≡ (of_scenario (form types.now.table.heads of) && returns (length types.now.table.heads) (row_of invoked.now) of)) }
{
    if !is_scenario(types.kind(of)) {
        return Ok(false);
    }
    ranking.leads_back(alloc, invoked, types.count(), of)
}

/// Faults of types that are scenarios and invoke themselves through others, given what each type invokes.
fn with_returning(
    alloc: Global,
    types: &Types,
    texts: &ProgramTexts<'_>,
    first: Option<Fault>,
    invoked: &Invoked,
) -> Result<Option<Fault>, AllocError>
    ensures { IfOk result (λ f. (ts : TypesOf) → Tells ts types.now texts.now → AreInvoked ts invoked.now → f ≡ first_from first (map (invocation_row ts) (all_types ts.table.heads))) }
{
    let ranking = Ranking::of(alloc, invoked, types.count())?;
    let mut fault = first;
    for number in 0..types.count() {
        let of = TypeId(number);
        let is_wrong = invokes_itself(alloc, types, &ranking, invoked, of)?;
        fault = with_fault(fault, texts.place(of), FaultCode::Cycle, is_wrong);
    }
    Ok(fault)
}

/// Faults of scenarios that invoke themselves through others.
pub(crate) fn with_invocations(
    alloc: Global,
    types: &Types,
    texts: &ProgramTexts<'_>,
    first: Option<Fault>,
) -> Result<Option<Fault>, AllocError>
    ensures { IfOk result (λ f. (ts : TypesOf) → Tells ts types.now texts.now → f ≡ first_from first (map (invocation_row ts) (all_types ts.table.heads))) }
{
    let rows = all_invoked(alloc, types, texts.dos.as_slice())?;
    with_returning(alloc, types, texts, first, &Invoked { rows })
}
