//! Phases of a behaviour. They nest in the blocks of compositions.

ghost use Rattle.std.specs.Prelude.{◌≡◌, ◌≢◌, ◌∷◌, map};
ghost use Rattle.dsl_cursor.specs.Words.{[], Err, IfOk, IfErr, Memory, Part, starts, take, read, in_row, Gives, rest_at, IsRow, first};
ghost use Rattle.dsl_expressions.specs.Words.{expr_tree, argument_tree};
ghost use Rattle.dsl_parser.specs.Words.{PhaseTree, row_of, phase_tree, part_tree, composition_codes, composition_token, core_of, behind_label, behind_name, invoke_codes, invoke_token, label_rest, name_rest, phases_rest, IsStarted, IsHeaded};
ghost use Rattle.dsl_tree.specs.WrittenPhases as written;

use crate::invocations::{InvocationRest, composition_arguments, invocation_rest};
use dsl_cursor::Sign::{self, Mark, Word};
use dsl_cursor::{Cursor, Stop, row_of as one_row};
use dsl_expressions::expr;
use dsl_headings::bracket_and_line_end;
use dsl_tree::WordKind::{ActorWord, ElapsedWord, OneOfWord, ParallelWord, SerialWord, WaitWord};
use dsl_tree::{
    Argument, CompKind, CompNode, Expr, Ident, InvokeHead, InvokeNode, MarkKind, Phase, TokenKind,
    WaitNode,
};
use osc_base::{Place, Row};
use std::alloc::Global;

/// What a phase begins with: a phase that has no block of phases is read whole, and of a composition
/// its label alone.
#[derive(Drop)]
enum PhaseStart {
    Whole(Phase),
    Composition(Option<Ident>),
}

fn invoke(label: Option<Ident>, head: InvokeHead, rest: InvocationRest) -> Phase
    ensures { phase_tree result ≡ PhaseTree.Invoke label head rest.names (map argument_tree rest.arguments) (map part_tree rest.parts) }
{
    let InvocationRest {
        names,
        arguments,
        parts,
    } = rest;
    Phase::Invoke(InvokeNode {
        label,
        head,
        names,
        arguments,
        parts,
    })
}

/// A wait, as the place of its word and the time.
#[tactic(auto, using(crate::proofs::Steps::step_wait))]
fn wait(alloc: Global, tokens: &mut Cursor<'_>) -> Result<(Place, Expr), Stop>
    ensures { Gives (λ w. core_of (written.wait w.0 (expr_tree w.1))) (read Part.Wait tokens.old) result tokens.new }
{
    let place = tokens.expect(Word(WaitWord))?;
    tokens.expect(Word(ElapsedWord))?;
    tokens.expect(Mark(MarkKind::OpenRound))?;
    let elapsed = expr(alloc, tokens)?;
    bracket_and_line_end(tokens)?;
    Ok((place, elapsed))
}

fn waiting(label: Option<Ident>, place: Place, elapsed: Expr) -> Phase
    ensures { phase_tree result ≡ PhaseTree.Wait label place (expr_tree elapsed) }
{
    Phase::Wait(WaitNode {
        label,
        place,
        elapsed,
    })
}

/// Whether the first token begins a composition.
fn begins_composition(tokens: &Cursor<'_>) -> bool
    ensures { result ≡ starts (first Part.Composition) tokens.now }
{
    tokens.begins(Word(SerialWord))
        || tokens.begins(Word(ParallelWord))
        || tokens.begins(Word(OneOfWord))
}

/// Whether the first token begins a phase.
fn begins_phase(tokens: &Cursor<'_>) -> bool
    ensures { result ≡ starts (first Part.Phase) tokens.now }
{
    tokens.begins_name()
        || tokens.begins(Word(ActorWord))
        || begins_composition(tokens)
        || tokens.begins(Word(WaitWord))
}

/// Whether the first token is a name or `actor`.
fn begins_head(tokens: &Cursor<'_>) -> bool
    ensures { result ≡ starts invoke_codes tokens.now }
{
    tokens.begins_name() || tokens.begins(Word(ActorWord))
}

/// The head of an invocation behind a label.
#[tactic(auto, unfolding(dsl_cursor::specs::Descent::take))]
fn invoke_head(alloc: Global, tokens: &mut Cursor<'_>) -> Result<InvokeHead, Stop>
    ensures { Gives invoke_token (take invoke_codes tokens.old) result tokens.new }
{
    let (first, _) = tokens.split();
    match &first.kind {
        TokenKind::Name(_) => Ok(InvokeHead::Name(tokens.expect_name(alloc)?)),
        TokenKind::Word(ActorWord) => Ok(InvokeHead::Actor(tokens.expect(Word(ActorWord))?)),
        _ => Err(tokens.miss()),
    }
}

#[tactic(auto, using(crate::proofs::Steps::step_labelled_phase, dsl_cursor::proofs::Lengths::lengths))]
fn start_behind_label(
    alloc: Global,
    label: Ident,
    tokens: &mut Cursor<'_>,
) -> Result<PhaseStart, Stop>
    ensures { IsStarted Part.LabelledPhase (behind_label label) label_rest tokens.old result tokens.new }
{
    if begins_head(tokens) {
        let head = invoke_head(alloc, tokens)?;
        let rest = invocation_rest(alloc, tokens)?;
        return Ok(PhaseStart::Whole(invoke(Some(label), head, rest)));
    }
    if begins_composition(tokens) {
        return Ok(PhaseStart::Composition(Some(label)));
    }
    let (place, elapsed) = wait(alloc, tokens)?;
    Ok(PhaseStart::Whole(waiting(Some(label), place, elapsed)))
}

#[tactic(auto, using(crate::proofs::Steps::step_phase_after_name, dsl_cursor::proofs::Lengths::lengths))]
fn start_behind_name(
    alloc: Global,
    name: Ident,
    tokens: &mut Cursor<'_>,
) -> Result<PhaseStart, Stop>
    ensures { IsStarted Part.PhaseAfterName (behind_name name) name_rest tokens.old result tokens.new }
{
    if tokens.take(Mark(MarkKind::Colon)).is_some() {
        return start_behind_label(alloc, name, tokens);
    }
    let rest = invocation_rest(alloc, tokens)?;
    Ok(PhaseStart::Whole(invoke(None, InvokeHead::Name(name), rest)))
}

#[tactic(auto, using(crate::proofs::Steps::step_phase, dsl_cursor::proofs::Lengths::lengths))]
fn start(alloc: Global, tokens: &mut Cursor<'_>) -> Result<PhaseStart, Stop>
    ensures { IsStarted Part.Phase (λ f. f) (λ f. f) tokens.old result tokens.new }
{
    if tokens.begins_name() {
        let name = tokens.expect_name(alloc)?;
        return start_behind_name(alloc, name, tokens);
    }
    if begins_composition(tokens) {
        return Ok(PhaseStart::Composition(None));
    }
    if let Some(place) = tokens.take(Word(ActorWord)) {
        let rest = invocation_rest(alloc, tokens)?;
        return Ok(PhaseStart::Whole(invoke(None, InvokeHead::Actor(place), rest)));
    }
    let (place, elapsed) = wait(alloc, tokens)?;
    Ok(PhaseStart::Whole(waiting(None, place, elapsed)))
}

/// The place and the kind of the word that begins a composition.
#[tactic(auto, unfolding(dsl_cursor::specs::Descent::take))]
fn composition_word(tokens: &mut Cursor<'_>) -> Result<(Place, CompKind), Stop>
    ensures { Gives (λ w. composition_token w.0 w.1) (take composition_codes tokens.old) result tokens.new }
{
    let (first, _) = tokens.split();
    match &first.kind {
        TokenKind::Word(SerialWord) => Ok((tokens.expect(Word(SerialWord))?, CompKind::Serial)),
        TokenKind::Word(ParallelWord) => Ok((
            tokens.expect(Word(ParallelWord))?,
            CompKind::Parallel,
        )),
        TokenKind::Word(OneOfWord) => Ok((tokens.expect(Word(OneOfWord))?, CompKind::OneOf)),
        _ => Err(tokens.miss()),
    }
}

/// A composition before the phases of its block.
#[derive(Drop)]
struct CompositionHead {
    place: Place,
    kind: CompKind,
    arguments: Row<Argument>,
}

#[tactic(auto, using(crate::proofs::Steps::step_composition, dsl_cursor::proofs::Lengths::lengths))]
fn composition_head(alloc: Global, tokens: &mut Cursor<'_>) -> Result<CompositionHead, Stop>
    ensures { IsHeaded tokens.old result tokens.new }
{
    let (place, kind) = composition_word(tokens)?;
    let arguments = composition_arguments(alloc, tokens)?;
    tokens.expect(Mark(MarkKind::Colon))?;
    tokens.expect(Sign::Newline)?;
    tokens.expect(Sign::Indent)?;
    Ok(CompositionHead {
        place,
        kind,
        arguments,
    })
}

fn composed(label: Option<Ident>, head: CompositionHead, members: Row<Phase>) -> Phase
    ensures { phase_tree result ≡ PhaseTree.Comp label head.place head.kind (map argument_tree head.arguments) (row_of (map phase_tree members)) }
{
    let CompositionHead {
        place,
        kind,
        arguments,
    } = head;
    Phase::Comp(CompNode {
        label,
        place,
        kind,
        arguments,
        members,
    })
}

/// A phase.
#[cycle(phase_readers)]
#[tactic(auto, using(dsl_cursor::proofs::Lengths::lengths))]
pub fn phase(alloc: Global, tokens: &mut Cursor<'_>) -> Result<Phase, Stop>
    ensures { Gives (λ p. written.phase (phase_tree p)) (read Part.Phase tokens.old) result tokens.new }
{
    let label = match start(alloc, tokens)? {
        PhaseStart::Whole(phase) => return Ok(phase),
        PhaseStart::Composition(label) => label,
    };
    let head = composition_head(alloc, tokens)?;
    let members = phases_in_block(alloc, tokens)?;
    Ok(composed(label, head, members))
}

/// The phases of a block and its end.
#[cycle(phase_readers)]
#[tactic(auto, using(dsl_cursor::proofs::Lengths::lengths))]
fn phases_in_block(alloc: Global, tokens: &mut Cursor<'_>) -> Result<Row<Phase>, Stop>
    ensures { Gives (λ ps. written.block_phases (row_of (map phase_tree ps))) (in_row read (rest_at Part.Composition 0 5) tokens.old) result tokens.new }
{
    let first = phase(alloc, tokens)?;
    let phases = phases_from(alloc, first, tokens)?;
    tokens.expect(Sign::Dedent)?;
    Ok(phases)
}

/// The phases of a block from this one on.
#[cycle(phase_readers)]
#[tactic(auto, using(dsl_cursor::proofs::Lengths::lengths))]
fn phases_from(alloc: Global, first: Phase, tokens: &mut Cursor<'_>) -> Result<Row<Phase>, Stop>
    ensures ok { IfOk result (λ phases. IsRow Part.PhasesTail phases_rest (first ∷ []) phases tokens.old tokens.new) }
    ensures err { IfErr result (λ e. e ≢ Memory → read Part.PhasesTail tokens.old ≡ Err e) }
{
    let mut phases = one_row(alloc, first)?;
    'phases: while begins_phase(tokens) {
        let item = phase(alloc, tokens)?;
        phases.push(item)?;
    }
    Ok(phases)
}
