//! The linear forms of terms and rules: their constants, and their factors added to a row of numbers, one for each slot.
ghost use Rattle.std.specs.Prelude.{◌≡◌, ◌≤◌, ◌<◌, ◌^◌, ◌+◌, ◌*◌, [], length, pos, unsigned_abs, ◌+ℤ◌, ◌-ℤ◌, ◌*ℤ◌};
ghost use Rattle.box_eval.specs.Box.{value_of};
ghost use Rattle.box_eval.specs.Reach.{slot_bound, term_slot_bound};
ghost use Rattle.linear_sums.specs.Linear.{factor_of, form_of_rule, form_of_term, term_weight, rule_weight};
ghost use Rattle.linear_sums.specs.Steps.{HasRoom, IsAdded};

use crate::weighing::is_fixed;
use box_eval::{Rule, Term};

/// The constant of a term's form.
pub(crate) fn constant(term: &Term) -> i128
    requires { term_weight [] term.now ≤ 2 ^ 120 }
    ensures value { result ≡ (form_of_term term.now).constant }
    ensures small { unsigned_abs result ≤ term_weight [] term.now }
{
    match term {
        Term::Whole(number) => *number,
        Term::Slot(_) => 0,
        Term::Sum(a, b) => constant(a.get()) + constant(b.get()),
        Term::Less(a, b) => constant(a.get()) - constant(b.get()),
        Term::Times(a, b) => constant(a.get()) * constant(b.get()),
        Term::Truth(_) => 0,
    }
}

/// The constant of a rule's form, and its gap.
pub(crate) fn constant_and_gap(rule: &Rule) -> i128
    requires { rule_weight [] rule.now ≤ 2 ^ 120 }
    ensures { result ≡ (form_of_rule rule.now).constant +ℤ (form_of_rule rule.now).gap }
{
    match rule {
        Rule::Below(a, b) => difference(a, b) + 1,
        Rule::AtMost(a, b) => difference(a, b),
        _ => 0,
    }
}

/// The constant of a difference.
fn difference(a: &Term, b: &Term) -> i128
    requires { term_weight [] a.now + term_weight [] b.now ≤ 2 ^ 120 }
    ensures value { result ≡ (form_of_term a.now).constant -ℤ (form_of_term b.now).constant }
    ensures small { unsigned_abs result ≤ term_weight [] a.now + term_weight [] b.now }
{
    constant(a) - constant(b)
}

/// Adds the factors of a rule, so many times each, to those of the slots.
pub(crate) fn gather_rule(rule: &Rule, times: i128, sums: &mut [i128])
    requires slots { slot_bound rule.now ≤ length sums.old }
    requires weight { rule_weight [] rule.now ≤ 2 ^ 120 }
    requires room { HasRoom sums.old (unsigned_abs times * rule_weight [] rule.now) }
    ensures { IsAdded sums.old sums.new times (form_of_rule rule.now).factor }
{
    match rule {
        Rule::Below(a, b) => gather_between(a, b, times, sums),
        Rule::AtMost(a, b) => gather_between(a, b, times, sums),
        _ => {}
    }
}

/// Adds the factors of a difference.
fn gather_between(a: &Term, b: &Term, times: i128, sums: &mut [i128])
    requires first_slots { term_slot_bound a.now ≤ length sums.old }
    requires second_slots { term_slot_bound b.now ≤ length sums.old }
    requires weight { term_weight [] a.now + term_weight [] b.now ≤ 2 ^ 120 }
    requires room { HasRoom sums.old (unsigned_abs times * (term_weight [] a.now + term_weight [] b.now)) }
    ensures { IsAdded sums.old sums.new times (λ slot. (form_of_term a.now).factor slot -ℤ (form_of_term b.now).factor slot) }
{
    gather(a, times, sums);
    gather(b, -times, sums);
}

/// Adds the factors of a term, so many times each.
fn gather(term: &Term, times: i128, sums: &mut [i128])
    requires slots { term_slot_bound term.now ≤ length sums.old }
    requires weight { term_weight [] term.now ≤ 2 ^ 120 }
    requires room { HasRoom sums.old (unsigned_abs times * term_weight [] term.now) }
    ensures { IsAdded sums.old sums.new times (form_of_term term.now).factor }
{
    match term {
        Term::Whole(_) => {}
        Term::Slot(slot) => add_at(*slot, times, sums),
        Term::Sum(a, b) => {
            gather(a.get(), times, sums);
            gather(b.get(), times, sums);
        }
        Term::Less(a, b) => {
            gather(a.get(), times, sums);
            gather(b.get(), -times, sums);
        }
        Term::Times(a, b) => {
            if is_fixed(a.get()) {
                gather(b.get(), times * constant(a.get()), sums);
            } else {
                gather(a.get(), times * constant(b.get()), sums);
            }
        }
        Term::Truth(_) => {}
    }
}

/// Adds a number to that of a slot.
fn add_at(slot: u32, number: i128, sums: &mut [i128])
    requires slots { slot < length sums.old }
    requires room { HasRoom sums.old (unsigned_abs number) }
    ensures { IsAdded sums.old sums.new number (factor_of slot) }
{
    sums[slot as usize] = sums[slot as usize] + number;
}
