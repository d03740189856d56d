//! Terms and rules of given parts.

ghost use Rattle.std.specs.Prelude.{◌≡◌, ℕ, ◌<◌, ◌≤◌, ◌*◌, ◌/◌, ◌^◌, cond, pos, unsigned_abs, map, IfOk};
ghost use Rattle.box_eval.specs.FlatRules as Flat;
ghost use Rattle.box_eval.specs.FlatRules.{flat_rule, flat_term, times as so_often};
ghost use Rattle.field_flatten.specs.expr_nodes.Value.{is_one as says_one};
ghost use Rattle.field_flatten.specs.Shapes.{compared as compared_by, constant_term, product_of};
ghost use Rattle.field_flatten.specs.osc_base.Fraction.{value};

use crate::rows;
use box_eval::osc_base::{Boxed, Fraction};
use box_eval::{Rule, Term};
use field_flatten::Compare;
use std::alloc::{AllocError, Global};

/// A number of times a term.
pub fn times(alloc: Global, number: u128, term: Term) -> Result<Term, AllocError>
    requires { number < 2 ^ 127 }
    ensures { IfOk result (λ t. flat_term t ≡ so_often number (flat_term term)) }
{
    if number == 1 {
        return Ok(term);
    }
    let count = Boxed::new(alloc, Term::Whole(number as i128))?;
    Ok(Term::Times(count, Boxed::new(alloc, term)?))
}

/// The first minus the second.
pub fn less(alloc: Global, left: Term, right: Term) -> Result<Term, AllocError>
    ensures { IfOk result (λ t. flat_term t ≡ Flat.Less (flat_term left) (flat_term right)) }
{
    let left = Boxed::new(alloc, left)?;
    Ok(Term::Less(left, Boxed::new(alloc, right)?))
}

/// A number of times 1 if the rule is true, and 0 if it is false.
pub fn truth(alloc: Global, number: u128, rule: Rule) -> Result<Term, AllocError>
    requires { number < 2 ^ 127 }
    ensures { IfOk result (λ t. flat_term t ≡ so_often number (Flat.Truth (flat_rule rule))) }
{
    times(alloc, number, Term::Truth(Boxed::new(alloc, rule)?))
}

/// A term with its sign turned.
pub fn opposite(alloc: Global, term: Term) -> Result<Term, AllocError>
    ensures { IfOk result (λ t. flat_term t ≡ Flat.Less (Flat.Whole (pos 0)) (flat_term term)) }
{
    less(alloc, Term::Whole(0), term)
}

/// A constant at a multiple of its denominator.
pub fn constant(number: &Fraction, e: u128) -> Term
    requires room { unsigned_abs number.now.num * (e / unsigned_abs number.now.den) ≤ 2 ^ 120 }
    requires small { e / unsigned_abs number.now.den < 2 ^ 127 }
    ensures { flat_term result ≡ constant_term (value number.now) e }
{
    Term::Whole(number.num * ((e / number.den.unsigned_abs()) as i128))
}

/// A number of times the product of a row.
pub fn product(alloc: Global, number: u128, row: Vec<Term>) -> Result<Term, AllocError>
    requires { number < 2 ^ 127 }
    ensures { IfOk result (λ t. flat_term t ≡ so_often number (product_of (map flat_term row.items))) }
{
    times(alloc, number, rows::product(alloc, row)?)
}

/// The term is 1.
pub fn is_one(term: Term) -> Rule
    ensures { flat_rule result ≡ Flat.Equal (flat_term term) (Flat.Whole (pos 1)) }
{
    Rule::Equal(term, Term::Whole(1))
}

/// This one is false.
pub fn not(alloc: Global, rule: Rule) -> Result<Rule, AllocError>
    ensures { IfOk result (λ r. flat_rule r ≡ Flat.Not (flat_rule rule)) }
{
    Ok(Rule::Not(Boxed::new(alloc, rule)?))
}

/// Both are true.
pub fn both(alloc: Global, left: Rule, right: Rule) -> Result<Rule, AllocError>
    ensures { IfOk result (λ r. flat_rule r ≡ Flat.Both (flat_rule left) (flat_rule right)) }
{
    let left = Boxed::new(alloc, left)?;
    Ok(Rule::Both(left, Boxed::new(alloc, right)?))
}

/// At least one is true.
pub fn either(alloc: Global, left: Rule, right: Rule) -> Result<Rule, AllocError>
    ensures { IfOk result (λ r. flat_rule r ≡ Flat.Either (flat_rule left) (flat_rule right)) }
{
    let left = Boxed::new(alloc, left)?;
    Ok(Rule::Either(left, Boxed::new(alloc, right)?))
}

/// Always true, or never.
pub fn always(alloc: Global, number: &Fraction) -> Result<Rule, AllocError>
    ensures { IfOk result (λ r. flat_rule r ≡ cond (says_one (value number.now)) Flat.Always (Flat.Not Flat.Always)) }
{
    if number.num == number.den {
        Ok(Rule::Always)
    } else {
        not(alloc, Rule::Always)
    }
}

/// The comparison of two terms.
pub fn compared(sign: Compare, left: Term, right: Term) -> Rule
    ensures { flat_rule result ≡ compared_by sign (flat_term left) (flat_term right) }
{
    match sign {
        Compare::Equal => Rule::Equal(left, right),
        Compare::Differ => Rule::Differ(left, right),
        Compare::Below => Rule::Below(left, right),
        Compare::AtMost => Rule::AtMost(left, right),
        Compare::Above => Rule::Below(right, left),
        Compare::AtLeast => Rule::AtMost(right, left),
    }
}
