//! The faults of the arguments of a composition: its duration, and its overlap.

ghost use Rattle.std.specs.Prelude.{◌≡◌, ◌++◌, [], map, IfOk};
ghost use Rattle.osc_base.specs.FaultRows.{first_from};
ghost use Rattle.dsl_tree.specs.Views.{argument_tree, expr_tree};
ghost use Rattle.expr_nodes.specs.Fits.{duration_fit_rows};
ghost use Rattle.expr_nodes.specs.SeenNames.{seen_scope};
ghost use Rattle.expr_nodes.specs.Typing.{expr_rows, first as first_in, typed};
ghost use Rattle.program_calls.specs.composition.Uses.{among, composition_rows, is_overlap as of_overlap, takes_overlap as taking_overlap};
ghost use Rattle.program_uses.specs.CompositionRows.{ContinuesComposition, ContinuesNamed, other_rows, overlap_words, valued_rows};

use crate::rules::{with_expr, with_known};
use dsl_tree::{Argument, CompKind, Expr, Ident};
use expr_eval::checked;
use expr_nodes::{Scope, Types};
use fault_sets::TextSet;
use name_scope::with_fault;
use osc_base::{Fault, FaultCode};
use program_calls::{first_place, name_of};
use std::alloc::{AllocError, Global};
use value_fits::with_duration;

/// Whether it is one of the four words after `overlap:`.
fn is_overlap_word(word: &str) -> bool
    ensures { result ≡ among word.now overlap_words }
{
    word == "start" || (word == "end" || (word == "equal" || word == "any"))
}

/// Whether an expression is one of the four words after `overlap:`.
fn is_overlap(value: &Expr) -> bool
    ensures { result ≡ of_overlap (expr_tree value.now) }
{
    match name_of(value) {
        Some(name) => is_overlap_word(name.text.as_str()),
        None => false,
    }
}

/// Whether a composition takes `overlap:`.
fn takes_overlap(kind: CompKind) -> bool
    ensures { result ≡ taking_overlap kind }
{
    match kind {
        CompKind::Parallel => true,
        CompKind::Serial | CompKind::OneOf => false,
    }
}

/// Faults of a stated duration, and of the expression itself.
pub(crate) fn with_whole_duration(
    alloc: Global,
    types: &Types,
    scope: &Scope<'_>,
    first: Option<Fault>,
    value: &Expr,
) -> Result<Option<Fault>, AllocError>
    ensures { IfOk result (λ f. f ≡ first_from first (duration_fit_rows (first_in (expr_tree value.now)) (typed types.now.table (seen_scope scope.now) (expr_tree value.now)) ++ expr_rows types.now.table (seen_scope scope.now) (expr_tree value.now))) }
{
    let known = checked(alloc, types, scope, value)?;
    let fitted = with_duration(first, first_place(value), &known.typed);
    Ok(with_known(fitted, &known))
}

/// Faults of an argument with another name than `duration`.
fn with_other(
    alloc: Global,
    types: &Types,
    scope: &Scope<'_>,
    first: Option<Fault>,
    kind: CompKind,
    name: &Ident,
    value: &Expr,
) -> Result<Option<Fault>, AllocError>
    ensures { IfOk result (λ f. f ≡ first_from first (other_rows types.now.table (seen_scope scope.now) kind name.now (expr_tree value.now))) }
{
    if name.text.as_str() == "overlap" && (takes_overlap(kind) && is_overlap(value)) {
        return Ok(first);
    }
    let own = with_fault(first, name.place, FaultCode::BadArgument, true);
    with_expr(alloc, types, scope, own, value)
}

/// Faults of the value of an argument with a name.
fn with_valued(
    alloc: Global,
    types: &Types,
    scope: &Scope<'_>,
    first: Option<Fault>,
    kind: CompKind,
    name: &Ident,
    value: &Expr,
) -> Result<Option<Fault>, AllocError>
    ensures { IfOk result (λ f. f ≡ first_from first (valued_rows types.now.table (seen_scope scope.now) kind name.now (expr_tree value.now))) }
{
    if name.text.as_str() == "duration" {
        with_whole_duration(alloc, types, scope, first, value)
    } else {
        with_other(alloc, types, scope, first, kind, name, value)
    }
}

/// Faults of an argument with a name.
fn with_named<'a>(
    alloc: Global,
    types: &Types,
    scope: &Scope<'_>,
    first: Option<Fault>,
    met: &mut TextSet<'a>,
    kind: CompKind,
    name: &'a Ident,
    value: &Expr,
) -> Result<Option<Fault>, AllocError>
    ensures { IfOk result (λ f. ContinuesNamed types.now.table (seen_scope scope.now) kind first met.old f met.new name.entry.now (expr_tree value.now)) }
{
    let is_met = met.meet(name.text.as_str())?;
    let own = with_fault(first, name.place, FaultCode::BadArgument, is_met);
    with_valued(alloc, types, scope, own, kind, name, value)
}

/// Faults of an argument.
fn with_argument<'a>(
    alloc: Global,
    types: &Types,
    scope: &Scope<'_>,
    first: Option<Fault>,
    met: &mut TextSet<'a>,
    kind: CompKind,
    argument: &'a Argument,
) -> Result<Option<Fault>, AllocError>
    ensures { IfOk result (λ f. ContinuesComposition types.now.table (seen_scope scope.now) kind first met.old f met.new (argument_tree argument.entry.now)) }
{
    match &argument.name {
        Some(name) => {
            let value = &argument.value;
            with_named(alloc, types, scope, first, met, kind, name, value)
        }
        None => {
            let place = first_place(&argument.value);
            let own = with_fault(first, place, FaultCode::BadArgument, true);
            with_expr(alloc, types, scope, own, &argument.value)
        }
    }
}

/// Faults of the arguments of a composition.
pub(crate) fn with_composition<'a>(
    alloc: Global,
    types: &Types,
    scope: &Scope<'_>,
    first: Option<Fault>,
    kind: CompKind,
    arguments: &'a [Argument],
) -> Result<Option<Fault>, AllocError>
    ensures { IfOk result (λ f. f ≡ first_from first (composition_rows types.now.table (seen_scope scope.now) kind [] (map argument_tree arguments.entry.now))) }
{
    let mut met = TextSet::new(alloc);
    let mut fault = first;
    for argument in arguments {
        fault = with_argument(alloc, types, scope, fault, &mut met, kind, argument)?;
    }
    Ok(fault)
}
