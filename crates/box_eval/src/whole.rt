ghost use Rattle.std.specs.Prelude.{◌≡◌, not, int_lt, int_le, ◌+ℤ◌, ◌-ℤ◌, ◌*ℤ◌, FitsSigned};
ghost use Rattle.std.specs.Int.{w128};
ghost use Rattle.box_eval.specs.declared.rule.Rule.TheViews as views;
ghost use Rattle.box_eval.specs.declared.rule.Rule.TheVariants as variants;
ghost use Rattle.box_eval.specs.Truth.{is_same};

use crate::{Rule, Term};

fn plus(a: i128, b: i128) -> i128
    requires { FitsSigned w128 (a +ℤ b) }
    ensures { result ≡ a +ℤ b }
{
    a + b
}

fn minus(a: i128, b: i128) -> i128
    requires { FitsSigned w128 (a -ℤ b) }
    ensures { result ≡ a -ℤ b }
{
    a - b
}

pub(crate) fn product(a: i128, b: i128) -> i128
    requires { FitsSigned w128 (a *ℤ b) }
    ensures { result ≡ a *ℤ b }
{
    a * b
}

/// The value of a sum, a difference or a product, from those of its two parts.
pub(crate) fn worked_out(term: &Term, a: i128, b: i128) -> i128
    requires sum { (x y : Term) → term.now ≡ views.Sum x y → FitsSigned w128 (a +ℤ b) }
    requires less { (x y : Term) → term.now ≡ views.Less x y → FitsSigned w128 (a -ℤ b) }
    requires times { (x y : Term) → term.now ≡ views.Times x y → FitsSigned w128 (a *ℤ b) }
    ensures sum { (x y : Term) → term.now ≡ views.Sum x y → result ≡ a +ℤ b }
    ensures less { (x y : Term) → term.now ≡ views.Less x y → result ≡ a -ℤ b }
    ensures times { (x y : Term) → term.now ≡ views.Times x y → result ≡ a *ℤ b }
{
    match term {
        Term::Sum(_, _) => plus(a, b),
        Term::Less(_, _) => minus(a, b),
        Term::Times(_, _) => product(a, b),
        _ => a,
    }
}

/// Whether a comparison is true, from the values of its two sides.
pub(crate) fn relates(rule: &Rule, a: i128, b: i128) -> bool
    ensures below { (x y : Term) → rule.now ≡ variants.Below x y → result ≡ int_lt a b }
    ensures at_most { (x y : Term) → rule.now ≡ variants.AtMost x y → result ≡ int_le a b }
    ensures equal { (x y : Term) → rule.now ≡ variants.Equal x y → result ≡ is_same a b }
    ensures differ { (x y : Term) → rule.now ≡ variants.Differ x y → result ≡ not (is_same a b) }
{
    match rule {
        Rule::Below(_, _) => a < b,
        Rule::AtMost(_, _) => a <= b,
        Rule::Equal(_, _) => a == b,
        Rule::Differ(_, _) => a != b,
        _ => false,
    }
}
