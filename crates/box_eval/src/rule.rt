ghost use Rattle.std.specs.Prelude.{◌≡◌, IfOk};

use osc_base::Boxed;
use std::alloc::{AllocError, Global};

/// A whole number that depends on a point: the value of a slot, or what is worked out of others.
#[derive(Drop)]
#[cycle(flat)]
pub enum Term {
    /// This number at every point.
    Whole(i128),
    /// The value of the slot of this number, counted from 0.
    Slot(u32),
    /// The first plus the second.
    Sum(Boxed<Term>, Boxed<Term>),
    /// The first minus the second.
    Less(Boxed<Term>, Boxed<Term>),
    /// The first times the second.
    Times(Boxed<Term>, Boxed<Term>),
    /// 1 if the rule is true, and 0 if it is false.
    Truth(Boxed<Rule>),
}

/// A statement about a point that is true or false there.
#[derive(Drop)]
#[cycle(flat)]
pub enum Rule {
    /// True at every point.
    Always,
    /// The first is less than the second.
    Below(Term, Term),
    /// The first is at most the second.
    AtMost(Term, Term),
    /// Both are one number.
    Equal(Term, Term),
    /// They are different numbers.
    Differ(Term, Term),
    /// Both are true.
    Both(Boxed<Rule>, Boxed<Rule>),
    /// At least one is true.
    Either(Boxed<Rule>, Boxed<Rule>),
    /// This one is false.
    Not(Boxed<Rule>),
}

impl Term {
    /// An equal term.
    #[cycle(copies)]
    pub fn copy(&self, alloc: Global) -> Result<Term, AllocError>
        ensures { IfOk result (λ t. t ≡ self.now) }
    {
        match self {
            Term::Whole(number) => Ok(Term::Whole(*number)),
            Term::Slot(slot) => Ok(Term::Slot(*slot)),
            Term::Sum(a, b) => Ok(Term::Sum(copy_part(alloc, a)?, copy_part(alloc, b)?)),
            Term::Less(a, b) => Ok(Term::Less(copy_part(alloc, a)?, copy_part(alloc, b)?)),
            Term::Times(a, b) => Ok(Term::Times(copy_part(alloc, a)?, copy_part(alloc, b)?)),
            Term::Truth(rule) => Ok(Term::Truth(copy_side(alloc, rule)?)),
        }
    }
}

impl Rule {
    /// An equal rule.
    #[cycle(copies)]
    pub fn copy(&self, alloc: Global) -> Result<Rule, AllocError>
        ensures { IfOk result (λ r. r ≡ self.now) }
    {
        match self {
            Rule::Always => Ok(Rule::Always),
            Rule::Below(a, b) => Ok(Rule::Below(a.copy(alloc)?, b.copy(alloc)?)),
            Rule::AtMost(a, b) => Ok(Rule::AtMost(a.copy(alloc)?, b.copy(alloc)?)),
            Rule::Equal(a, b) => Ok(Rule::Equal(a.copy(alloc)?, b.copy(alloc)?)),
            Rule::Differ(a, b) => Ok(Rule::Differ(a.copy(alloc)?, b.copy(alloc)?)),
            Rule::Both(a, b) => Ok(Rule::Both(copy_side(alloc, a)?, copy_side(alloc, b)?)),
            Rule::Either(a, b) => Ok(Rule::Either(copy_side(alloc, a)?, copy_side(alloc, b)?)),
            Rule::Not(a) => Ok(Rule::Not(copy_side(alloc, a)?)),
        }
    }
}

#[cycle(copies)]
fn copy_part(alloc: Global, term: &Boxed<Term>) -> Result<Boxed<Term>, AllocError>
    ensures { IfOk result (λ t. t ≡ term.now) }
{
    Boxed::new(alloc, term.get().copy(alloc)?)
}

#[cycle(copies)]
fn copy_side(alloc: Global, rule: &Boxed<Rule>) -> Result<Boxed<Rule>, AllocError>
    ensures { IfOk result (λ r. r ≡ rule.now) }
{
    Boxed::new(alloc, rule.get().copy(alloc)?)
}
