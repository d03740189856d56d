//! A flat form with one slot: from 0 to 5, above 3, and below 3.
ghost use Rattle.std.specs.Prelude.{IfOk, [], ◌∷◌, negsuc, pos};
ghost use Rattle.box_eval.specs.Box.{pair};
ghost use Rattle.box_eval.specs.Rules.{CanJudge, IsFlat};
ghost use Rattle.record_text.specs.Written.{HaveShortValues, HaveSums};

use box_eval::{Bounds, Flat, Pair, Rule, Term};
use osc_base::{Boxed, Row};
use record_trees::{Line, Record};
use std::alloc::{AllocError, Global};

fn within(alloc: Global) -> Result<Rule, AllocError>
    ensures { IfOk result (λ rule. CanJudge (pair (negsuc 999999999) (pos 1000000000) ∷ []) rule) }
{
    let low = Rule::AtMost(Term::Whole(0), Term::Slot(0));
    let high = Rule::AtMost(Term::Slot(0), Term::Whole(5));
    Ok(Rule::Both(Boxed::new(alloc, low)?, Boxed::new(alloc, high)?))
}

fn above() -> Rule
    ensures { CanJudge (pair (negsuc 999999999) (pos 1000000000) ∷ []) result }
{
    Rule::Below(Term::Whole(3), Term::Slot(0))
}

fn below() -> Rule
    ensures { CanJudge (pair (negsuc 999999999) (pos 1000000000) ∷ []) result }
{
    Rule::Below(Term::Slot(0), Term::Whole(3))
}

pub(crate) fn flat(alloc: Global) -> Result<Flat, AllocError>
    ensures { IfOk result (λ flat. IsFlat flat) }
{
    let mut pairs = Row::new(alloc);
    pairs.push(Pair {
        low: -1_000_000_000,
        high: 1_000_000_000,
    })?;
    let within = within(alloc)?;
    let mut rules = Row::new(alloc);
    rules.push(within)?;
    rules.push(above())?;
    rules.push(below())?;
    let bounds = Bounds { pairs };
    Ok(Flat { bounds, rules })
}

/// A refutation of that form.
pub(crate) const REFUTATION: &[u8] =
    b"osc-refutation 1\nslots 1\nrules 3\nroom 3\nlow 0 -1\nclose 0\nhigh 0 5\nclose 0\nlow 0 3\nclose 1\nclose 2\nend\n";

/// A shorter record, and its text.
pub(crate) const SHORT_REFUTATION: &[u8] =
    b"osc-refutation 1\nslots 1\nrules 3\nroom 1\nlow 0 -2\nclose 1\nclose 2\nend\n";

pub(crate) fn short_refutation(alloc: Global) -> Result<Record, AllocError>
    ensures values { IfOk result (λ claim. HaveShortValues claim.lines) }
    ensures sums { IfOk result (λ claim. HaveSums claim.lines claim.picks) }
{
    let mut lines = Row::new(alloc);
    lines.push(Line::Low { slot: 0, value: -2 })?;
    lines.push(Line::Close { rule: 1 })?;
    lines.push(Line::Close { rule: 2 })?;
    Ok(Record {
        undecided: false,
        slots: 1,
        rules: 3,
        room: 1,
        lines,
        picks: Row::new(alloc),
    })
}
