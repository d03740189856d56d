//! Phases.

ghost use Rattle.std.specs.Prelude.{◌≡◌, ℕ, List, map, IfOk};
ghost use Rattle.dsl_tree.specs.Views.{argument_tree, expr_tree, modifier_tree, part_tree};
ghost use Rattle.object_works.specs.scene_expansion.composition.Expansion.{Calling};
ghost use Rattle.object_works.specs.scene_expansion.composition.Scenes.{Binding};
ghost use Rattle.object_works.specs.scene_expansion.expansion_laws.WorkNodes.{node_of};
ghost use Rattle.object_works.specs.scene_expansion.expansion_laws.Works as Works;
ghost use Rattle.work_counts.specs.program_texts.SeenTexts.{types_in};
ghost use Rattle.object_works.specs.scene_expansion.AllCounts.{counts_of};
ghost use Rattle.expr_nodes.specs.type_heads.Types.{Types};
ghost use Rattle.work_counts.specs.Amounts.{kept, sum_of};
ghost use Rattle.work_parts.specs.Parts.{composition_slots as slots_of, modifier_amount, part_amount};

use crate::arguments::{arguments_tally, duration_tally};
use crate::with_own::{ticks_to, with_own};
use dsl_tree::{CompKind, CompNode, InvokeNode, InvokePart, ModifierNode, WaitNode};
use expr_nodes::TypeId;
use object_works::{Counts, arguments_tokens, modifier_form};
use std::alloc::{AllocError, Global};
use work_counts::{ProgramTexts, Tally, rule_tally, value_tally};

/// The slots of a composition: a `one_of` has a further one.
fn composition_slots(kind: CompKind) -> u64
    ensures { result ≡ slots_of kind }
{
    match kind {
        CompKind::OneOf => 3,
        CompKind::Serial | CompKind::Parallel => 2,
    }
}

/// A composition.
pub(crate) fn composition_counts(node: &CompNode, last: u32) -> Counts
    ensures { (ts : Types) (call : Calling) (count : ℕ) → result ≡ counts_of last (node_of ts (Works.Comp call node.now.kind (map argument_tree node.now.arguments) count)) }
{
    let own = duration_tally(node.arguments.as_slice());
    with_own(0, composition_slots(node.kind), 1, own)
}

/// A modifier, which has a rule and its tokens at each tick. One without a form has none.
fn modifier_tally(modifier: &ModifierNode, ticks: u64) -> Tally
    ensures { result ≡ kept (modifier_amount ticks (modifier_tree modifier.now)) }
{
    match modifier_form(modifier) {
        Some(_) => Tally::rule(arguments_tokens(modifier.arguments.as_slice())).times(ticks),
        None => Tally::none(),
    }
}

/// A rule or a modifier of a `with:`.
fn part_tally(part: &InvokePart, ticks: u64) -> Tally
    ensures { result ≡ kept (part_amount ticks (part_tree part.now)) }
{
    match part {
        InvokePart::Rule(rule) => rule_tally(rule),
        InvokePart::Modifier(modifier) => modifier_tally(modifier, ticks),
    }
}

/// The rules and modifiers of a `with:`.
fn parts_tally(parts: &[InvokePart], ticks: u64) -> Tally
    ensures { result ≡ kept (sum_of (part_amount ticks) (map part_tree parts.now)) }
{
    let mut all = Tally::none();
    for part in parts {
        all = all.with(part_tally(part, ticks));
    }
    all
}

/// An invocation of a type.
pub(crate) fn invocation_counts(
    alloc: Global,
    texts: &ProgramTexts<'_>,
    node: &InvokeNode,
    of: TypeId,
    last: u32,
) -> Result<Counts, AllocError>
    ensures { IfOk result (λ c. (steps : ℕ) (call : Calling) (bindings : List Binding) → c ≡ counts_of last (node_of (types_in texts.now) (Works.Invoke steps call node.now.head node.now.names (map argument_tree node.now.arguments) (map part_tree node.now.parts) of bindings))) }
{
    let given = arguments_tally(alloc, texts, of, node.arguments.as_slice())?;
    let parts = parts_tally(node.parts.as_slice(), ticks_to(last));
    Ok(with_own(0, 2, 1, given.with(parts)))
}

/// A `wait`.
pub(crate) fn wait_counts(node: &WaitNode, last: u32) -> Counts
    ensures { (ts : Types) (call : Calling) → result ≡ counts_of last (node_of ts (Works.Wait call (expr_tree node.now.elapsed))) }
{
    with_own(0, 2, 1, value_tally(&node.elapsed))
}
