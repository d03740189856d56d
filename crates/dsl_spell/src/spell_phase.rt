ghost use Rattle.std.specs.Prelude.{◌≡◌};
ghost use Rattle.dsl_spell.specs.Writing.{map, refl, OnOk, nil, Phase-F, path, rule, rules_tail, dotted_names, invocation_arguments, modifier, parts_tail, composition_arguments, phase, block_phases, head_tree, path_tree, rule_tree, argument_tree, modifier_tree, part_tree, phase_tree, comp_tree, phase_step, wrote, Writes, label_of, argument_of};
ghost use Rattle.dsl_tree.specs.Written.{path_row};
ghost use Rattle.dsl_tree.specs.PhaseTree.{row_of};

use crate::rows::{Next, push_with};
use crate::spell_expr::{push_expr, push_suffixes};
use crate::writer::Writer;
use dsl_tree::{
    Argument, CompKind, CompNode, Ident, InvokeHead, InvokeNode, InvokePart, KeepKind, MarkKind,
    ModifierNode, PathHead, PathNode, Phase, RuleDecl, WaitNode, WordKind,
};
use std::alloc::AllocError;

fn push_path_head(w: &mut Writer, head: &PathHead) -> Result<(), AllocError>
    ensures { OnOk result (Writes w.old (path_row (head_tree head.now) nil) w.new) }
{
    match head {
        PathHead::Name(text) => w.name(text),
        PathHead::It(place) => w.word(*place, WordKind::ItWord),
        PathHead::Actor(place) => w.word(*place, WordKind::ActorWord),
    }
}

fn push_path(w: &mut Writer, tree: &PathNode) -> Result<(), AllocError>
    ensures { OnOk result (Writes w.old (path (path_tree tree.now)) w.new) }
{
    push_path_head(w, &tree.head)?;
    push_suffixes(w, tree.suffixes.as_slice())
}

pub(crate) fn push_rule(w: &mut Writer, tree: &RuleDecl) -> Result<(), AllocError>
    ensures { OnOk result (Writes w.old (rule (rule_tree tree.now)) w.new) }
{
    match tree {
        RuleDecl::Keep { place, kind, expr } => {
            w.word(*place, WordKind::KeepWord)?;
            w.bare_mark(MarkKind::OpenRound)?;
            match kind {
                KeepKind::Plain => (),
                KeepKind::Hard => w.bare_word(WordKind::HardWord)?,
                KeepKind::Default => w.bare_word(WordKind::DefaultWord)?,
            }
            push_expr(w, expr)?;
        }
        RuleDecl::Remove { place, path } => {
            w.word(*place, WordKind::RemoveDefaultWord)?;
            w.bare_mark(MarkKind::OpenRound)?;
            push_path(w, path)?;
        }
    }
    w.bare_mark(MarkKind::CloseRound)?;
    w.line_end()
}

impl Next for RuleDecl {
    ghost tail = { λ rules. rules_tail (map rule_tree rules) };

    ghost ends = { refl };

    fn next(&self, w: &mut Writer) -> Result<(), AllocError> {
        push_rule(w, self)
    }
}

/// A name and a colon, if there is a name.
fn push_label(w: &mut Writer, label: &Option<Ident>) -> Result<(), AllocError>
    ensures { OnOk result (w.new ≡ wrote w.old (label_of label.now)) }
{
    if let Some(text) = label {
        w.name(text)?;
        w.bare_mark(MarkKind::Colon)?;
    }
    Ok(())
}

fn push_argument(w: &mut Writer, argument: &Argument) -> Result<(), AllocError>
    ensures { OnOk result (Writes w.old (argument_of argument.now) w.new) }
{
    push_label(w, &argument.name)?;
    push_expr(w, &argument.value)
}

/// Arguments and the bracket after them.
fn push_arguments(w: &mut Writer, arguments: &[Argument]) -> Result<(), AllocError>
    ensures { OnOk result (Writes w.old (invocation_arguments (map argument_tree arguments.now)) w.new) }
{
    match arguments.split_first() {
        None => w.bare_mark(MarkKind::CloseRound),
        Some((first, others)) => {
            push_argument(w, first)?;
            'others: for argument in others {
                w.bare_mark(MarkKind::Comma)?;
                push_argument(w, argument)?;
            }
            w.bare_mark(MarkKind::CloseRound)
        }
    }
}

/// Arguments in brackets, if there are any.
fn push_brackets(w: &mut Writer, arguments: &[Argument]) -> Result<(), AllocError>
    ensures { OnOk result (Writes w.old (composition_arguments (map argument_tree arguments.now)) w.new) }
{
    if let [_, ..] = arguments {
        w.bare_mark(MarkKind::OpenRound)?;
        push_arguments(w, arguments)?;
    }
    Ok(())
}

pub(crate) fn push_modifier(w: &mut Writer, tree: &ModifierNode) -> Result<(), AllocError>
    ensures { OnOk result (Writes w.old (modifier (modifier_tree tree.now)) w.new) }
{
    w.name(&tree.name)?;
    w.bare_mark(MarkKind::OpenRound)?;
    push_arguments(w, tree.arguments.as_slice())?;
    w.line_end()
}

impl Next for InvokePart {
    ghost tail = { λ parts. parts_tail (map part_tree parts) };

    ghost ends = { refl };

    fn next(&self, w: &mut Writer) -> Result<(), AllocError> {
        match self {
            InvokePart::Rule(rule) => push_rule(w, rule),
            InvokePart::Modifier(modifier) => push_modifier(w, modifier),
        }
    }
}

pub(crate) fn push_dotted(w: &mut Writer, names: &[Ident]) -> Result<(), AllocError>
    ensures { OnOk result (Writes w.old (dotted_names names.now) w.new) }
{
    'names: for text in names {
        w.bare_mark(MarkKind::Dot)?;
        w.name(text)?;
    }
    Ok(())
}

fn push_invocation(w: &mut Writer, node: &InvokeNode) -> Result<(), AllocError>
    ensures { OnOk result (Writes w.old (phase (phase_step (Phase-F.Invoke node.now))) w.new) }
{
    push_label(w, &node.label)?;
    match &node.head {
        InvokeHead::Name(text) => w.name(text)?,
        InvokeHead::Actor(place) => w.word(*place, WordKind::ActorWord)?,
    }
    push_dotted(w, node.names.as_slice())?;
    w.bare_mark(MarkKind::OpenRound)?;
    push_arguments(w, node.arguments.as_slice())?;
    push_with(w, node.parts.as_slice())
}

fn push_wait(w: &mut Writer, node: &WaitNode) -> Result<(), AllocError>
    ensures { OnOk result (Writes w.old (phase (phase_step (Phase-F.Wait node.now))) w.new) }
{
    push_label(w, &node.label)?;
    w.word(node.place, WordKind::WaitWord)?;
    w.bare_word(WordKind::ElapsedWord)?;
    w.bare_mark(MarkKind::OpenRound)?;
    push_expr(w, &node.elapsed)?;
    w.bare_mark(MarkKind::CloseRound)?;
    w.line_end()
}

#[cycle(spelling_phases)]
pub(crate) fn push_phase(w: &mut Writer, tree: &Phase) -> Result<(), AllocError>
    ensures { OnOk result (Writes w.old (phase (phase_tree tree.now)) w.new) }
{
    match tree {
        Phase::Comp(node) => push_comp(w, node),
        Phase::Invoke(node) => push_invocation(w, node),
        Phase::Wait(node) => push_wait(w, node),
    }
}

#[cycle(spelling_phases)]
fn push_comp(w: &mut Writer, node: &CompNode) -> Result<(), AllocError>
    ensures { OnOk result (Writes w.old (phase (comp_tree node.now)) w.new) }
{
    push_label(w, &node.label)?;
    let kind = match node.kind {
        CompKind::Serial => WordKind::SerialWord,
        CompKind::Parallel => WordKind::ParallelWord,
        CompKind::OneOf => WordKind::OneOfWord,
    };
    w.word(node.place, kind)?;
    push_brackets(w, node.arguments.as_slice())?;
    w.bare_mark(MarkKind::Colon)?;
    w.begin_block()?;
    push_phases(w, node.members.as_slice())
}

// the phases of a block, and its end
#[cycle(spelling_phases)]
fn push_phases(w: &mut Writer, phases: &[Phase]) -> Result<(), AllocError>
    ensures { OnOk result (Writes w.old (block_phases (row_of (map phase_tree phases.now))) w.new) }
{
    'phases: for tree in phases {
        push_phase(w, tree)?;
    }
    w.end_block()
}
