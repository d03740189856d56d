//! Flat forms of few kinds of rules.

use box_eval::{Bounds, Flat, Pair, Rule, Term};
use osc_base::{Boxed, Row};
use std::alloc::{AllocError, Global};

/// So many slots with the same ends, and no rules.
pub(crate) fn slots(alloc: Global, count: u32, low: i64, high: i64) -> Result<Flat, AllocError> {
    let mut pairs = Row::new(alloc);
    for _ in 0..count {
        pairs.push(Pair { low, high })?;
    }
    Ok(Flat {
        bounds: Bounds { pairs },
        rules: Row::new(alloc),
    })
}

/// A number from 0 to a million whose square is 2.
pub(crate) fn root(alloc: Global) -> Result<Flat, AllocError> {
    let mut flat = slots(alloc, 1, 0, 1_000_000)?;
    let square = Term::Times(
        Boxed::new(alloc, Term::Slot(0))?,
        Boxed::new(alloc, Term::Slot(0))?,
    );
    flat.rules.push(Rule::Equal(square, Term::Whole(2)))?;
    Ok(flat)
}

/// Three numbers in a circle, each of which is one less than the next. No sum of such rules is looked for, so each end creeps.
pub(crate) fn circle(alloc: Global) -> Result<Flat, AllocError> {
    let mut flat = slots(alloc, 3, -1_000_000_000, 1_000_000_000)?;
    for number in 0..3 {
        let more = Term::Sum(
            Boxed::new(alloc, Term::Slot(number))?,
            Boxed::new(alloc, Term::Whole(1))?,
        );
        flat.rules
            .push(Rule::Equal(more, Term::Slot((number + 1) % 3)))?;
    }
    Ok(flat)
}

/// So many rules over 1,000 slots: each says of two slots that one is at most the other.
pub(crate) fn many_rules(alloc: Global, count: u32) -> Result<Flat, AllocError> {
    let mut flat = slots(alloc, 1000, 0, 1000)?;
    for number in 0..count {
        let first = Term::Slot(number % 1000);
        let second = Term::Slot(number / 1000 % 1000);
        flat.rules.push(Rule::AtMost(first, second))?;
    }
    Ok(flat)
}

/// So many slots from 0 to a billion, and as many rules, each of which says that its slot is below 0.
pub(crate) fn never_below_zero(alloc: Global, count: u32) -> Result<Flat, AllocError> {
    let mut flat = slots(alloc, count, 0, 1_000_000_000)?;
    for slot in 0..count {
        let number = Term::Slot(slot);
        flat.rules.push(Rule::Below(number, Term::Whole(0)))?;
    }
    Ok(flat)
}
