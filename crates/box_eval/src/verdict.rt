ghost use Rattle.std.specs.Prelude.{◌≡◌, ◌≤◌, ◌^◌};
ghost use Rattle.box_eval.specs.Verdict.{negated, both_of, either_of, below_of, at_most_of, equal_of, sum_of, less_of, times_of, truth_of, least_of, greatest_of};
ghost use Rattle.box_eval.specs.Reach.{magnitude};
ghost use Rattle.box_eval.specs.declared.rule.Rule.TheViews as views;
ghost use Rattle.box_eval.specs.declared.rule.Rule.TheVariants as variants;

use crate::whole::product;
use crate::{Rule, Term};

/// What a box says of a rule: true at each of its points, false at each, or not settled.
#[derive(Debug, Clone, Copy, PartialEq, Eq)]
pub enum Verdict {
    True,
    False,
    Open,
}

/// The least and the greatest value that a term is known to have in a box.
#[derive(Clone, Copy)]
pub(crate) struct Span {
    pub(crate) least: i128,
    pub(crate) greatest: i128,
}

pub(crate) fn negated(verdict: Verdict) -> Verdict
    ensures { result ≡ negated verdict }
{
    match verdict {
        Verdict::True => Verdict::False,
        Verdict::False => Verdict::True,
        Verdict::Open => Verdict::Open,
    }
}

pub(crate) fn both(a: Verdict, b: Verdict) -> Verdict
    ensures { result ≡ both_of a b }
{
    match (a, b) {
        (Verdict::True, other) => other,
        (Verdict::False, _) => Verdict::False,
        (Verdict::Open, Verdict::False) => Verdict::False,
        (Verdict::Open, _) => Verdict::Open,
    }
}

pub(crate) fn either(a: Verdict, b: Verdict) -> Verdict
    ensures { result ≡ either_of a b }
{
    match (a, b) {
        (Verdict::True, _) => Verdict::True,
        (Verdict::False, other) => other,
        (Verdict::Open, Verdict::True) => Verdict::True,
        (Verdict::Open, _) => Verdict::Open,
    }
}

pub(crate) fn below(a: Span, b: Span) -> Verdict
    ensures { result ≡ below_of a b }
{
    if a.greatest < b.least {
        Verdict::True
    } else if b.greatest <= a.least {
        Verdict::False
    } else {
        Verdict::Open
    }
}

pub(crate) fn at_most(a: Span, b: Span) -> Verdict
    ensures { result ≡ at_most_of a b }
{
    if a.greatest <= b.least {
        Verdict::True
    } else if b.greatest < a.least {
        Verdict::False
    } else {
        Verdict::Open
    }
}

pub(crate) fn equal(a: Span, b: Span) -> Verdict
    ensures { result ≡ equal_of a b }
{
    if a.greatest < b.least || b.greatest < a.least {
        Verdict::False
    } else if a.greatest <= b.least && b.greatest <= a.least {
        Verdict::True
    } else {
        Verdict::Open
    }
}

pub(crate) fn sum(a: Span, b: Span) -> Span
    requires { magnitude (sum_of a b) ≤ 2 ^ 120 }
    ensures { result ≡ sum_of a b }
{
    Span {
        least: a.least + b.least,
        greatest: a.greatest + b.greatest,
    }
}

pub(crate) fn less(a: Span, b: Span) -> Span
    requires { magnitude (less_of a b) ≤ 2 ^ 120 }
    ensures { result ≡ less_of a b }
{
    Span {
        least: a.least - b.greatest,
        greatest: a.greatest - b.least,
    }
}

pub(crate) fn times(a: Span, b: Span) -> Span
    requires { magnitude (times_of a b) ≤ 2 ^ 120 }
    ensures { result ≡ times_of a b }
{
    let p = product(a.least, b.least);
    let q = product(a.least, b.greatest);
    let r = product(a.greatest, b.least);
    let s = product(a.greatest, b.greatest);
    Span {
        least: least_of_four(p, q, r, s),
        greatest: greatest_of_four(p, q, r, s),
    }
}

fn least_of_four(a: i128, b: i128, c: i128, d: i128) -> i128
    ensures { result ≡ least_of a b c d }
{
    a.min(b).min(c.min(d))
}

fn greatest_of_four(a: i128, b: i128, c: i128, d: i128) -> i128
    ensures { result ≡ greatest_of a b c d }
{
    a.max(b).max(c.max(d))
}

pub(crate) fn truth_span(verdict: Verdict) -> Span
    ensures { result ≡ truth_of verdict }
{
    match verdict {
        Verdict::True => between(1, 1),
        Verdict::False => between(0, 0),
        Verdict::Open => between(0, 1),
    }
}

pub(crate) fn between(least: i128, greatest: i128) -> Span
    ensures least { result.least ≡ least }
    ensures greatest { result.greatest ≡ greatest }
{
    Span { least, greatest }
}

/// What a comparison says, from the spans of its two sides.
///
/// A caller works out the spans in one place for all comparisons: each local of a function is set to zero at its entry.
pub(crate) fn compared(rule: &Rule, a: Span, b: Span) -> Verdict
    ensures below { (x y : Term) → rule.now ≡ variants.Below x y → result ≡ below_of a b }
    ensures at_most { (x y : Term) → rule.now ≡ variants.AtMost x y → result ≡ at_most_of a b }
    ensures equal { (x y : Term) → rule.now ≡ variants.Equal x y → result ≡ equal_of a b }
    ensures differ { (x y : Term) → rule.now ≡ variants.Differ x y → result ≡ negated (equal_of a b) }
{
    match rule {
        Rule::Below(_, _) => below(a, b),
        Rule::AtMost(_, _) => at_most(a, b),
        Rule::Equal(_, _) => equal(a, b),
        Rule::Differ(_, _) => negated(equal(a, b)),
        _ => Verdict::Open,
    }
}

/// The span of a sum, a difference or a product, from those of its two parts.
pub(crate) fn combined(term: &Term, a: Span, b: Span) -> Span
    requires sum { (x y : Term) → term.now ≡ views.Sum x y → magnitude (sum_of a b) ≤ 2 ^ 120 }
    requires less { (x y : Term) → term.now ≡ views.Less x y → magnitude (less_of a b) ≤ 2 ^ 120 }
    requires times { (x y : Term) → term.now ≡ views.Times x y → magnitude (times_of a b) ≤ 2 ^ 120 }
    ensures sum { (x y : Term) → term.now ≡ views.Sum x y → result ≡ sum_of a b }
    ensures less { (x y : Term) → term.now ≡ views.Less x y → result ≡ less_of a b }
    ensures times { (x y : Term) → term.now ≡ views.Times x y → result ≡ times_of a b }
{
    match term {
        Term::Sum(_, _) => sum(a, b),
        Term::Less(_, _) => less(a, b),
        Term::Times(_, _) => times(a, b),
        _ => a,
    }
}
