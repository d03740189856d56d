//! The labels of a `do`, and what their phases make.

ghost use Rattle.std.specs.Prelude.{◌≡◌, [], map, option_copied, IfOk};
ghost use Rattle.dsl_tree.specs.Views.{phase_tree};
ghost use Rattle.composition.specs.Calls.{callee, label_of as label_before, phases_in as all_phases};
ghost use Rattle.expr_nodes.specs.Seen.{seen_made};
ghost use Rattle.program_calls.specs.PlacedPhases.{seen_phase};
ghost use Rattle.program_calls.specs.SeenCallees.{called_in};
ghost use Rattle.program_calls.specs.SeenLabels.{labelled as label_with, labels_here, made_in, made_of, seen_labels, seen_phase_label};

use crate::actors::called;
use crate::callees::callee_of;
use crate::phases::{PlacedPhase, copy_way, phases_in};
use dsl_tree::{Ident, InvokeNode, Phase};
use expr_nodes::{Label, LabelTable, Made, TypeId, Types};
use osc_base::Text;
use std::alloc::{AllocError, Global};

/// The action or scenario that an invocation in the text of a type invokes.
pub fn invoked(
    alloc: Global,
    types: &Types,
    holder: TypeId,
    invocation: &InvokeNode,
) -> Result<Option<TypeId>, AllocError>
    ensures { IfOk result (λ of. of ≡ called_in types.now.table holder (callee invocation.now.head invocation.now.names)) }
{
    let callee = callee_of(&invocation.head, invocation.names.as_slice());
    called(alloc, types, holder, callee)
}

/// What an invocation makes, given the type that it invokes.
fn made_by(of: Option<TypeId>) -> Made
    ensures { seen_made result ≡ made_of of }
{
    match of {
        Some(of) => Made::Makes(of),
        None => Made::Unknown,
    }
}

/// What a phase in the text of a type makes.
fn made(alloc: Global, types: &Types, holder: TypeId, phase: &Phase) -> Result<Made, AllocError>
    ensures { IfOk result (λ m. seen_made m ≡ made_in types.now.table holder (phase_tree phase.now)) }
{
    match phase {
        Phase::Comp(_) | Phase::Wait(_) => Ok(Made::Nothing),
        Phase::Invoke(invocation) => {
            let of = invoked(alloc, types, holder, invocation)?;
            Ok(made_by(of))
        }
    }
}

/// The label before a phase.
fn label_of(phase: &Phase) -> Option<&Ident>
    ensures { option_copied result ≡ label_before (phase_tree phase.now) }
{
    match phase {
        Phase::Comp(comp) => comp.label.as_ref(),
        Phase::Invoke(invocation) => invocation.label.as_ref(),
        Phase::Wait(wait) => wait.label.as_ref(),
    }
}

/// The label of that name before a phase in the text of a type.
fn labelled(
    alloc: Global,
    types: &Types,
    holder: TypeId,
    placed: &PlacedPhase<'_>,
    name: &Ident,
) -> Result<Label, AllocError>
    ensures { IfOk result (λ l. seen_phase_label l ≡ label_with types.now.table holder (seen_phase placed.now) name.now) }
{
    let made = made(alloc, types, holder, placed.phase)?;
    Ok(Label {
        name: Text::copy(alloc, name.text.as_str())?,
        path: placed.place.path.copy(alloc)?,
        way: copy_way(alloc, placed.place.way.as_slice())?,
        made,
    })
}

/// The labels of the phases of a `do` that is written in the text of a type.
fn phase_labels(
    alloc: Global,
    types: &Types,
    holder: TypeId,
    phases: &[PlacedPhase<'_>],
) -> Result<Vec<Label>, AllocError>
    ensures { IfOk result (λ labels. map seen_phase_label labels.items ≡ labels_here types.now.table holder (map seen_phase phases.now)) }
{
    let mut labels = Vec::new(alloc);
    for placed in phases {
        if let Some(name) = label_of(placed.phase) {
            labels.push(labelled(alloc, types, holder, placed, name)?)?;
        }
    }
    Ok(labels)
}

/// The labels of a `do` that is written in the text of a type, in order.
fn labels_in(
    alloc: Global,
    types: &Types,
    holder: TypeId,
    phase: &Phase,
) -> Result<Vec<Label>, AllocError>
    ensures { IfOk result (λ labels. map seen_phase_label labels.items ≡ labels_here types.now.table holder (all_phases (phase_tree phase.now))) }
{
    let phases = phases_in(alloc, phase)?;
    let labels = phase_labels(alloc, types, holder, phases.as_slice())?;
    Ok(labels)
}

/// The labels of a `do` that is written in the text of a type.
pub fn do_labels(
    alloc: Global,
    types: &Types,
    holder: TypeId,
    phase: &Phase,
) -> Result<LabelTable, AllocError>
    ensures { IfOk result (λ table. seen_labels table ≡ labels_here types.now.table holder (all_phases (phase_tree phase.now))) }
{
    let labels = labels_in(alloc, types, holder, phase)?;
    let table = LabelTable::of(alloc, labels)?;
    Ok(table)
}

/// A table of no labels.
pub fn no_labels(alloc: Global) -> Result<LabelTable, AllocError>
    ensures { IfOk result (λ table. seen_labels table ≡ []) }
{
    let table = LabelTable::of(alloc, Vec::new(alloc))?;
    Ok(table)
}
