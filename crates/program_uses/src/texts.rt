//! The faults of all text: of the members of each type, where they are written.

ghost use Rattle.std.specs.Prelude.{◌≡◌, None, IfOk, [], flat_map, map};
ghost use Rattle.osc_base.specs.FaultRows.{first_from};
ghost use Rattle.dsl_tree.specs.Views.{member_tree};
ghost use Rattle.expr_nodes.specs.type_heads.Types.{Types as TypesOf};
ghost use Rattle.expr_nodes.specs.SeenNames.{seen_scope};
ghost use Rattle.program_calls.specs.composition.Calls.{scope_at as scope_in};
ghost use Rattle.program_calls.specs.composition.Uses.{member_use_rows, text_rows};
ghost use Rattle.expr_nodes.specs.type_heads.Table.{all_types};
ghost use Rattle.program_calls.specs.SeenLabels.{do_labels, seen_labels};
ghost use Rattle.expr_nodes.specs.type_heads.Bodied.{seen_written};
ghost use Rattle.program_uses.specs.SeenTexts.{Tells, written_rows};

use crate::fields::with_field;
use crate::phases::with_phases;
use crate::program_texts::ProgramTexts;
use crate::rules::with_rule;
use dsl_tree::Member;
use expr_nodes::{LabelTable, Scope, TypeId, Types};
use osc_base::Fault;
use program_calls::{do_labels, no_labels, scope_at};
use std::alloc::{AllocError, Global};
use type_members::WrittenMember;

/// Faults of a member in the text of a type. The scope is that of the text.
fn with_member<'a>(
    alloc: Global,
    types: &Types,
    texts: &ProgramTexts<'a>,
    labels: &LabelTable,
    of: TypeId,
    scope: &Scope<'_>,
    first: Option<Fault>,
    member: &'a Member,
) -> Result<Option<Fault>, AllocError>
    ensures { IfOk result (λ f. (ts : TypesOf) → Tells ts types.now texts.now → seen_labels labels.now ≡ do_labels ts of → seen_scope scope.now ≡ scope_in ts of None [] → f ≡ first_from first (member_use_rows ts of (member_tree member.entry.now))) }
{
    match member {
        Member::Field(field) => with_field(alloc, types, scope, first, field),
        Member::Rule(rule) => with_rule(alloc, types, scope, first, rule),
        Member::Do { phase, .. } => { with_phases(alloc, types, texts, labels, of, first, phase) }
    }
}

/// Faults of members in the text of a type. The labels are those of the type's `do`.
fn with_members<'a>(
    alloc: Global,
    types: &Types,
    texts: &ProgramTexts<'a>,
    labels: &LabelTable,
    of: TypeId,
    first: Option<Fault>,
    members: &[WrittenMember<'a>],
) -> Result<Option<Fault>, AllocError>
    ensures { IfOk result (λ f. (ts : TypesOf) → Tells ts types.now texts.now → seen_labels labels.now ≡ do_labels ts of → f ≡ first_from first (flat_map (written_rows ts of) (map seen_written members.now))) }
{
    let scope = scope_at(of, None, labels, &[]);
    let mut fault = first;
    for written in members {
        let member = written.member;
        fault = with_member(alloc, types, texts, labels, of, &scope, fault, member)?;
    }
    Ok(fault)
}

/// Faults of the text of a type, given the labels of its `do`.
fn with_labelled(
    alloc: Global,
    types: &Types,
    texts: &ProgramTexts<'_>,
    labels: &LabelTable,
    first: Option<Fault>,
    of: TypeId,
) -> Result<Option<Fault>, AllocError>
    ensures { IfOk result (λ f. (ts : TypesOf) → Tells ts types.now texts.now → seen_labels labels.now ≡ do_labels ts of → f ≡ first_from first (text_rows ts of)) }
{
    let declared = with_members(alloc, types, texts, labels, of, first, texts.own(of))?;
    let found = with_members(alloc, types, texts, labels, of, declared, texts.more(of))?;
    Ok(found)
}

/// Faults of the text of a type.
fn with_text(
    alloc: Global,
    types: &Types,
    texts: &ProgramTexts<'_>,
    first: Option<Fault>,
    of: TypeId,
) -> Result<Option<Fault>, AllocError>
    ensures { IfOk result (λ f. (ts : TypesOf) → Tells ts types.now texts.now → f ≡ first_from first (text_rows ts of)) }
{
    match texts.the_do(of) {
        Some(found) => {
            let labels = do_labels(alloc, types, TypeId(found.holder), found.phase)?;
            with_labelled(alloc, types, texts, &labels, first, of)
        }
        None => {
            let none = no_labels(alloc)?;
            with_labelled(alloc, types, texts, &none, first, of)
        }
    }
}

/// Faults of the text of all types.
pub(crate) fn with_texts(
    alloc: Global,
    types: &Types,
    texts: &ProgramTexts<'_>,
    first: Option<Fault>,
) -> Result<Option<Fault>, AllocError>
    ensures { IfOk result (λ f. (ts : TypesOf) → Tells ts types.now texts.now → f ≡ first_from first (flat_map (text_rows ts) (all_types ts.table.heads))) }
{
    let mut fault = first;
    for number in 0..types.count() {
        fault = with_text(alloc, types, texts, fault, TypeId(number))?;
    }
    Ok(fault)
}
