//! Comparisons of two slots.

ghost use Rattle.std.specs.Prelude.{◌≡◌};
ghost use Rattle.box_eval.specs.FlatRules as Flat;
ghost use Rattle.box_eval.specs.FlatRules.{flat_rule};

use box_eval::{Rule, Term};

/// Two slots are equal.
pub fn equal(a: u32, b: u32) -> Rule
    ensures { flat_rule result ≡ Flat.Equal (Flat.Slot a) (Flat.Slot b) }
{
    Rule::Equal(Term::Slot(a), Term::Slot(b))
}

/// A slot is at most another.
pub fn at_most(a: u32, b: u32) -> Rule
    ensures { flat_rule result ≡ Flat.AtMost (Flat.Slot a) (Flat.Slot b) }
{
    Rule::AtMost(Term::Slot(a), Term::Slot(b))
}
