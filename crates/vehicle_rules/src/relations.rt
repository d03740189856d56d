//! What modifiers say of two samples, as rules over the slots of these.

ghost use Rattle.std.specs.Prelude.{◌≡◌, ◌<◌, ◌≤◌, ◌^◌, ◌/◌, ℕ, true, IfOk};
ghost use Rattle.osc_base.specs.LowestTerms.{lcm};
ghost use Rattle.box_eval.specs.FlatRules as Flat;
ghost use Rattle.box_eval.specs.FlatRules.{FlatTerm, flat_rule, flat_term, times as so_often};
ghost use Rattle.rule_parts.specs.modifier_rules.Relations.{relation_at, between, apart, position_scale};
ghost use Rattle.rule_parts.specs.composition.Invariants.{has_range};
ghost use Rattle.vehicle_rules.specs.Relations.{quantity_term as term_of, relation_rule, is_ranged};

use crate::quantity::Quantity;
use box_eval::{Rule, Term};
use osc_base::{Boxed, Kind, SampleSlots};
use rule_parts::{common_scale, terms};
use std::alloc::{AllocError, Global};

/// So many units of a speed's slot make a metre a second.
const SPEED_SCALE: u128 = 1000;

/// A lane's slot counts lanes.
const LANE_SCALE: u128 = 1;

/// So many micrometres make a metre.
pub(crate) const POSITION_SCALE: u128 = 1_000_000;

/// What a modifier says of two samples.
#[derive(Clone, Copy)]
pub(crate) enum Relation {
    /// The quantity is in the range.
    Within(Quantity),
    /// What is in the first slot is what is in the second.
    Same(u32, u32),
    /// What is in the first slot is so much more than what is in the second.
    Beside(u32, u32, i8),
}

/// What a modifier says of the samples in these slots.
pub(crate) fn relation_of(kind: Kind, own: SampleSlots, other: SampleSlots) -> Relation
    ensures rule { (low high : FlatTerm) (scale : ℕ) → relation_rule result low high scale ≡ relation_at kind own other low high scale }
    ensures range { is_ranged result ≡ has_range kind }
{
    match kind {
        Kind::Speed => own_quantity(SPEED_SCALE, own.speed),
        Kind::FasterThan => difference(SPEED_SCALE, own.speed, other.speed),
        Kind::SlowerThan => difference(SPEED_SCALE, other.speed, own.speed),
        Kind::SameSpeed => Relation::Same(own.speed, other.speed),
        Kind::Lane => own_quantity(LANE_SCALE, own.lane),
        Kind::SameLane => Relation::Same(own.lane, other.lane),
        Kind::LeftOf => Relation::Beside(own.lane, other.lane, 1),
        Kind::RightOf => Relation::Beside(own.lane, other.lane, -1),
        Kind::Position => own_quantity(POSITION_SCALE, own.position),
        Kind::AheadOf => difference(POSITION_SCALE, own.position, other.position),
        Kind::Behind => difference(POSITION_SCALE, other.position, own.position),
    }
}

/// What is in a slot is in the range.
fn own_quantity(unit: u128, slot: u32) -> Relation
    requires { 0 < unit }
    ensures rule { (low high : FlatTerm) (scale : ℕ) → relation_rule result low high scale ≡ between unit (Flat.Slot slot) low high scale }
    ensures range { is_ranged result ≡ true }
{
    Relation::Within(Quantity {
        unit,
        slot,
        less: None,
    })
}

/// The difference of two slots is in the range.
fn difference(unit: u128, slot: u32, less: u32) -> Relation
    requires { 0 < unit }
    ensures rule { (low high : FlatTerm) (scale : ℕ) → relation_rule result low high scale ≡ between unit (apart slot less) low high scale }
    ensures range { is_ranged result ≡ true }
{
    Relation::Within(Quantity {
        unit,
        slot,
        less: Some(less),
    })
}

/// A quantity as a term.
fn quantity_term(alloc: Global, quantity: Quantity) -> Result<Term, AllocError>
    ensures { IfOk result (λ t. flat_term t ≡ term_of quantity.slot quantity.less) }
{
    match quantity.less {
        Some(other) => terms::less(alloc, Term::Slot(quantity.slot), Term::Slot(other)),
        None => Ok(Term::Slot(quantity.slot)),
    }
}

/// A quantity at a common scale.
fn widened(alloc: Global, quantity: Quantity, common: u128) -> Result<Term, AllocError>
    requires { common ≤ 2 ^ 120 }
    ensures { IfOk result (λ t. flat_term t ≡ so_often (common / quantity.unit) (term_of quantity.slot quantity.less)) }
{
    terms::times(
        alloc,
        common / quantity.unit,
        quantity_term(alloc, quantity)?,
    )
}

/// A quantity is at least the low end of a range, which is a term at a scale.
fn above_low(
    alloc: Global,
    quantity: Quantity,
    low: Term,
    scale: u128,
    common: u128,
) -> Result<Rule, AllocError>
    requires scale { 0 < scale }
    requires common { common ≤ 2 ^ 120 }
    ensures { IfOk result (λ r. flat_rule r ≡ Flat.AtMost (so_often (common / scale) (flat_term low)) (so_often (common / quantity.unit) (term_of quantity.slot quantity.less))) }
{
    let low = terms::times(alloc, common / scale, low)?;
    Ok(Rule::AtMost(low, widened(alloc, quantity, common)?))
}

/// A quantity is at most the high end of a range, which is a term at a scale.
fn below_high(
    alloc: Global,
    quantity: Quantity,
    high: Term,
    scale: u128,
    common: u128,
) -> Result<Rule, AllocError>
    requires scale { 0 < scale }
    requires common { common ≤ 2 ^ 120 }
    ensures { IfOk result (λ r. flat_rule r ≡ Flat.AtMost (so_often (common / quantity.unit) (term_of quantity.slot quantity.less)) (so_often (common / scale) (flat_term high))) }
{
    let high = terms::times(alloc, common / scale, high)?;
    Ok(Rule::AtMost(widened(alloc, quantity, common)?, high))
}

/// A quantity is in a range, whose ends are terms at a scale.
pub(crate) fn in_range(
    alloc: Global,
    quantity: Quantity,
    low: Term,
    high: Term,
    scale: u128,
) -> Result<Rule, AllocError>
    requires scale { 0 < scale }
    requires common { lcm position_scale scale ≤ 2 ^ 120 }
    ensures { IfOk result (λ r. flat_rule r ≡ between quantity.unit (term_of quantity.slot quantity.less) (flat_term low) (flat_term high) scale) }
{
    let common = common_scale(POSITION_SCALE, scale);
    let low = above_low(alloc, quantity, low, scale, common)?;
    let high = below_high(alloc, quantity, high, scale, common)?;
    terms::both(alloc, low, high)
}

/// What is in a slot is so much more than what is in another.
pub(crate) fn beside(alloc: Global, own: u32, other: u32, by: i8) -> Result<Rule, AllocError>
    ensures { IfOk result (λ r. flat_rule r ≡ Flat.Equal (Flat.Slot own) (Flat.Sum (Flat.Slot other) (Flat.Whole by))) }
{
    let other = Boxed::new(alloc, Term::Slot(other))?;
    let by = Boxed::new(alloc, Term::Whole(i128::from(by)))?;
    Ok(Rule::Equal(Term::Slot(own), Term::Sum(other, by)))
}
