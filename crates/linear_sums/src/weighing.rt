ghost use Rattle.std.specs.Prelude.{◌≡◌, ◌<◌, ◌≤◌, ◌+◌, ◌*◌, ℕ, length, pos};
ghost use Rattle.std.specs.Option.{option_map};
ghost use Rattle.box_eval.specs.Box.{low_at, high_at};
ghost use Rattle.box_eval.specs.Reach.{slot_bound, term_slot_bound};
ghost use Rattle.box_eval.specs.Rules.{IsFlat};
ghost use Rattle.linear_sums.specs.Linear.{form_of_rule, form_of_term, slot_weight, term_weight, rule_weight};
ghost use Rattle.linear_sums.specs.Sums.{kept, weight_in, weight_of};

use box_eval::{Bounds, Flat, Rule, Term};

/// The greatest weight of a linear rule, 2^120.
const MOST: u128 = 0x100_0000_0000_0000_0000_0000_0000_0000;

/// The weight of a rule of a flat form over its box. `None` exactly if the rule isn't linear there. It takes no memory.
pub fn weight(flat: &Flat, rule: u32) -> Option<i128>
    requires flat { IsFlat flat.now }
    requires there { rule < length flat.now.rules }
    ensures { result ≡ option_map pos (weight_in flat.now rule) }
{
    let found = weight_by_number(flat, rule)?;
    Some(found as i128)
}

/// The weight of a rule by its number.
pub(crate) fn weight_by_number(flat: &Flat, rule: u32) -> Option<u128>
    requires flat { IsFlat flat.now }
    requires there { rule < length flat.now.rules }
    ensures { result ≡ weight_in flat.now rule }
{
    linear_weight(&flat.rules.as_slice()[rule as usize], &flat.bounds)
}

/// The weight of a rule, if it is linear.
fn linear_weight(rule: &Rule, bounds: &Bounds) -> Option<u128>
    requires { slot_bound rule.now ≤ length bounds.now.pairs }
    ensures { result ≡ weight_of bounds.now.pairs rule.now }
{
    if has_form(rule) {
        weight_of_rule(rule, bounds)
    } else {
        None
    }
}

/// Whether a rule has a linear form, whatever its weight.
fn has_form(rule: &Rule) -> bool
    ensures { result ≡ (form_of_rule rule.now).linear }
{
    match rule {
        Rule::Below(a, b) => is_linear_term(a) && is_linear_term(b),
        Rule::AtMost(a, b) => is_linear_term(a) && is_linear_term(b),
        _ => false,
    }
}

/// Whether a term has a linear form.
fn is_linear_term(term: &Term) -> bool
    ensures { result ≡ (form_of_term term.now).linear }
{
    match term {
        Term::Whole(_) => true,
        Term::Slot(_) => true,
        Term::Sum(a, b) => is_linear_term(a.get()) && is_linear_term(b.get()),
        Term::Less(a, b) => is_linear_term(a.get()) && is_linear_term(b.get()),
        Term::Times(a, b) => {
            is_linear_term(a.get())
                && is_linear_term(b.get())
                && (is_fixed(a.get()) || is_fixed(b.get()))
        }
        Term::Truth(_) => false,
    }
}

/// Whether a term is built of numbers, sums, differences and products alone.
pub(crate) fn is_fixed(term: &Term) -> bool
    ensures { result ≡ (form_of_term term.now).fixed }
{
    match term {
        Term::Whole(_) => true,
        Term::Slot(_) => false,
        Term::Sum(a, b) => is_fixed(a.get()) && is_fixed(b.get()),
        Term::Less(a, b) => is_fixed(a.get()) && is_fixed(b.get()),
        Term::Times(a, b) => is_fixed(a.get()) && is_fixed(b.get()),
        Term::Truth(_) => false,
    }
}

/// A rule's weight, if it is at most 2^120.
fn weight_of_rule(rule: &Rule, bounds: &Bounds) -> Option<u128>
    requires { slot_bound rule.now ≤ length bounds.now.pairs }
    ensures { result ≡ kept (rule_weight bounds.now.pairs rule.now) }
{
    match rule {
        Rule::Below(a, b) => both_weights(a, b, bounds),
        Rule::AtMost(a, b) => both_weights(a, b, bounds),
        _ => Some(1),
    }
}

fn both_weights(a: &Term, b: &Term, bounds: &Bounds) -> Option<u128>
    requires first { term_slot_bound a.now ≤ length bounds.now.pairs }
    requires second { term_slot_bound b.now ≤ length bounds.now.pairs }
    ensures { result ≡ kept (term_weight bounds.now.pairs a.now + term_weight bounds.now.pairs b.now) }
{
    weights_added(weight_of_term(a, bounds), weight_of_term(b, bounds))
}

/// A term's weight, if it is at most 2^120.
fn weight_of_term(term: &Term, bounds: &Bounds) -> Option<u128>
    requires { term_slot_bound term.now ≤ length bounds.now.pairs }
    ensures { result ≡ kept (term_weight bounds.now.pairs term.now) }
{
    match term {
        Term::Whole(number) => within(number.unsigned_abs().max(1)),
        Term::Slot(slot) => weight_of_slot(*slot, bounds),
        Term::Sum(a, b) => {
            weights_added(
                weight_of_term(a.get(), bounds),
                weight_of_term(b.get(), bounds),
            )
        }
        Term::Less(a, b) => {
            weights_added(
                weight_of_term(a.get(), bounds),
                weight_of_term(b.get(), bounds),
            )
        }
        Term::Times(a, b) => {
            weights_multiplied(
                weight_of_term(a.get(), bounds),
                weight_of_term(b.get(), bounds),
            )
        }
        Term::Truth(_) => Some(1),
    }
}

fn weight_of_slot(slot: u32, bounds: &Bounds) -> Option<u128>
    requires { slot < length bounds.now.pairs }
    ensures { result ≡ kept (slot_weight (low_at bounds.now.pairs slot) (high_at bounds.now.pairs slot)) }
{
    let pair = &bounds.pairs.as_slice()[slot as usize];
    let greatest = pair.low.unsigned_abs().max(pair.high.unsigned_abs());
    Some(u128::from(greatest.max(1)))
}

/// A weight, if it is at most 2^120.
pub(crate) fn within(weight: u128) -> Option<u128>
    ensures { result ≡ kept weight }
{
    if weight <= MOST { Some(weight) } else { None }
}

fn weights_added(a: Option<u128>, b: Option<u128>) -> Option<u128>
    ensures { (m n : ℕ) → a ≡ kept m → b ≡ kept n → result ≡ kept (m + n) }
{
    match (a, b) {
        (Some(a), Some(b)) => match a.checked_add(b) {
            Some(weight) => within(weight),
            None => None,
        },
        _ => None,
    }
}

fn weights_multiplied(a: Option<u128>, b: Option<u128>) -> Option<u128>
    ensures { (m n : ℕ) → 1 ≤ m → 1 ≤ n → a ≡ kept m → b ≡ kept n → result ≡ kept (m * n) }
{
    match (a, b) {
        (Some(a), Some(b)) => match a.checked_mul(b) {
            Some(weight) => within(weight),
            None => None,
        },
        _ => None,
    }
}
