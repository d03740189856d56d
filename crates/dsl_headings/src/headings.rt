//! What types with members begin with: their words, their names, and what they inherit.

ghost use Rattle.std.specs.Prelude.{◌≡◌};
ghost use Rattle.dsl_cursor.specs.Words.{true, false, IfOk, Part, take, read, Gives, starts};
ghost use Rattle.dsl_headings.specs.Words.{is_plain, compound_token, plain_codes, owned_codes, unit_codes};
ghost use Rattle.dsl_tree.specs.WrittenFile as written;

use dsl_cursor::Sign::{Mark, Word};
use dsl_cursor::{Cursor, Stop, enum_member};
use dsl_tree::WordKind::{
    ActionWord, ActorWord, FalseWord, InheritsWord, ScenarioWord, StructWord, TrueWord, TypeWord,
    UnitWord,
};
use dsl_tree::osc_base::Place;
use dsl_tree::{
    CompoundKind, ConditionValue, Heir, HeirCondition, Ident, MarkKind, QName, TokenKind,
};
use std::alloc::Global;

#[tactic(auto, using(dsl_cursor::proofs::ReadSteps::read_step))]
fn second_name(alloc: Global, tokens: &mut Cursor<'_>) -> Result<Option<Ident>, Stop>
    ensures { Gives written.second_name (read Part.SecondName tokens.old) result tokens.new }
{
    match tokens.take(Mark(MarkKind::Dot)) {
        Some(_) => Ok(Some(tokens.expect_name(alloc)?)),
        None => Ok(None),
    }
}

/// A name, or a name with its owner before it.
#[tactic(auto, using(dsl_cursor::proofs::ReadSteps::read_step))]
pub fn qualified_name(alloc: Global, tokens: &mut Cursor<'_>) -> Result<QName, Stop>
    ensures { Gives written.qualified_name (read Part.QualifiedName tokens.old) result tokens.new }
{
    let first = tokens.expect_name(alloc)?;
    let second = second_name(alloc, tokens)?;
    Ok(QName { first, second })
}

#[tactic(auto, using(dsl_cursor::proofs::ReadSteps::read_step, dsl_cursor::proofs::Lengths::take_within))]
fn condition_value(alloc: Global, tokens: &mut Cursor<'_>) -> Result<ConditionValue, Stop>
    ensures { Gives written.condition_value (read Part.ConditionValue tokens.old) result tokens.new }
{
    if let Some(place) = tokens.take(Word(TrueWord)) {
        return Ok(ConditionValue::Truth { place, value: true });
    }
    if let Some(place) = tokens.take(Word(FalseWord)) {
        return Ok(ConditionValue::Truth {
            place,
            value: false,
        });
    }
    let name = tokens.expect_name(alloc)?;
    match enum_member(alloc, tokens)? {
        Some(member) => Ok(ConditionValue::EnumName { of: name, member }),
        None => Ok(ConditionValue::Name(name)),
    }
}

#[tactic(auto, using(crate::proofs::Steps::step_heir_condition))]
fn condition(alloc: Global, tokens: &mut Cursor<'_>) -> Result<Option<HeirCondition>, Stop>
    ensures { Gives written.heir_condition (read Part.HeirCondition tokens.old) result tokens.new }
{
    if tokens.take(Mark(MarkKind::OpenRound)).is_none() {
        return Ok(None);
    }
    let field = tokens.expect_name(alloc)?;
    tokens.expect(Mark(MarkKind::Equal))?;
    let value = condition_value(alloc, tokens)?;
    tokens.expect(Mark(MarkKind::CloseRound))?;
    Ok(Some(HeirCondition { field, value }))
}

/// What a type inherits, if it inherits anything.
#[tactic(auto, using(dsl_cursor::proofs::ReadSteps::read_step))]
pub fn heir(alloc: Global, tokens: &mut Cursor<'_>) -> Result<Option<Heir>, Stop>
    ensures { Gives written.optional_heir (read Part.OptionalHeir tokens.old) result tokens.new }
{
    if tokens.take(Word(InheritsWord)).is_none() {
        return Ok(None);
    }
    let base = qualified_name(alloc, tokens)?;
    let condition = condition(alloc, tokens)?;
    Ok(Some(Heir { base, condition }))
}

/// Whether the first token begins a type or a unit.
pub fn begins_type_or_unit(tokens: &Cursor<'_>) -> bool
    ensures { result ≡ starts unit_codes tokens.now }
{
    tokens.begins(Word(TypeWord)) || tokens.begins(Word(UnitWord))
}

/// Whether the first token begins a type with members and no owner.
pub fn begins_plain(tokens: &Cursor<'_>) -> bool
    ensures { result ≡ starts plain_codes tokens.now }
{
    tokens.begins(Word(StructWord)) || tokens.begins(Word(ActorWord))
}

/// Whether the first token begins a type with members and perhaps an owner.
pub fn begins_owned(tokens: &Cursor<'_>) -> bool
    ensures { result ≡ starts owned_codes tokens.now }
{
    tokens.begins(Word(ActionWord)) || tokens.begins(Word(ScenarioWord))
}

/// The place and the kind of a type with members and no owner.
#[tactic(auto, unfolding(dsl_cursor::specs::Descent::take))]
pub fn plain_word(tokens: &mut Cursor<'_>) -> Result<(Place, CompoundKind), Stop>
    ensures gives { Gives (λ w. compound_token w.0 w.1) (take plain_codes tokens.old) result tokens.new }
    ensures plain { IfOk result (λ w. is_plain w.1 ≡ true) }
{
    let (first, _) = tokens.split();
    match &first.kind {
        TokenKind::Word(StructWord) => Ok((tokens.expect(Word(StructWord))?, CompoundKind::Struct)),
        TokenKind::Word(ActorWord) => Ok((tokens.expect(Word(ActorWord))?, CompoundKind::Actor)),
        _ => Err(tokens.miss()),
    }
}

/// The place and the kind of a type with members and perhaps an owner.
#[tactic(auto, unfolding(dsl_cursor::specs::Descent::take))]
pub fn owned_word(tokens: &mut Cursor<'_>) -> Result<(Place, CompoundKind), Stop>
    ensures gives { Gives (λ w. compound_token w.0 w.1) (take owned_codes tokens.old) result tokens.new }
    ensures owned { IfOk result (λ w. is_plain w.1 ≡ false) }
{
    let (first, _) = tokens.split();
    match &first.kind {
        TokenKind::Word(ActionWord) => Ok((tokens.expect(Word(ActionWord))?, CompoundKind::Action)),
        TokenKind::Word(ScenarioWord) => {
            Ok((tokens.expect(Word(ScenarioWord))?, CompoundKind::Scenario))
        }
        _ => Err(tokens.miss()),
    }
}
