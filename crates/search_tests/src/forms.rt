//! The flat forms of the tests. Each may be searched, as [`is_flat`](crate::is_flat) sees.
use box_eval::{Bounds, Flat, Pair, Rule, Term};
use osc_base::{Boxed, Row};
use std::alloc::{AllocError, Global};

/// The least and the greatest value of a slot for a whole number.
const LEAST: i64 = -1_000_000_000;

const GREATEST: i64 = 1_000_000_000;

/// A slot as a term.
fn slot(number: u32) -> Term {
    Term::Slot(number)
}

/// A number as a term.
fn whole(number: i128) -> Term {
    Term::Whole(number)
}

/// The product of two terms.
fn product(alloc: Global, a: Term, b: Term) -> Result<Term, AllocError> {
    Ok(Term::Times(Boxed::new(alloc, a)?, Boxed::new(alloc, b)?))
}

/// The sum of two terms.
fn sum(alloc: Global, a: Term, b: Term) -> Result<Term, AllocError> {
    Ok(Term::Sum(Boxed::new(alloc, a)?, Boxed::new(alloc, b)?))
}

/// A slot that is at least a number and at most another.
fn within(alloc: Global, number: u32, low: i128, high: i128) -> Result<Rule, AllocError> {
    let least = Rule::AtMost(whole(low), slot(number));
    let most = Rule::AtMost(slot(number), whole(high));
    Ok(Rule::Both(Boxed::new(alloc, least)?, Boxed::new(alloc, most)?))
}

/// So many slots with the same ends, and no rules.
fn slots(alloc: Global, count: u32, low: i64, high: i64) -> Result<Flat, AllocError> {
    let mut pairs = Row::new(alloc);
    for _ in 0..count {
        pairs.push(Pair { low, high })?;
    }
    Ok(Flat {
        bounds: Bounds { pairs },
        rules: Row::new(alloc),
    })
}

/// So many whole numbers, and no rules.
fn whole_numbers(alloc: Global, count: u32) -> Result<Flat, AllocError> {
    slots(alloc, count, LEAST, GREATEST)
}

/// One whole number that is from 0 to 5, above 3 and below 3.
pub fn apart(alloc: Global) -> Result<Flat, AllocError> {
    let mut flat = whole_numbers(alloc, 1)?;
    flat.rules.push(within(alloc, 0, 0, 5)?)?;
    flat.rules.push(Rule::Below(whole(3), slot(0)))?;
    flat.rules.push(Rule::Below(slot(0), whole(3)))?;
    Ok(flat)
}

/// One whole number that is from 4 to 9, equal to 9 unless that is overridden, and 5 with 0 added.
pub fn overridden(alloc: Global, last: bool) -> Result<Flat, AllocError> {
    let mut flat = whole_numbers(alloc, 1)?;
    flat.rules.push(within(alloc, 0, 4, 9)?)?;
    if last {
        flat.rules.push(Rule::Equal(slot(0), whole(9)))?;
    }
    let left = sum(alloc, slot(0), whole(0))?;
    flat.rules.push(Rule::Equal(left, whole(5)))?;
    Ok(flat)
}

/// Two whole numbers, each of which is below the other: a false facing pair.
pub fn both_below(alloc: Global) -> Result<Flat, AllocError> {
    let mut flat = whole_numbers(alloc, 2)?;
    flat.rules.push(Rule::Below(slot(0), slot(1)))?;
    flat.rules.push(Rule::Below(slot(1), slot(0)))?;
    Ok(flat)
}

/// So many whole numbers in a circle, each of which is below the next. No two of three or more such rules face each other.
pub fn circle(alloc: Global, count: u32) -> Result<Flat, AllocError> {
    let mut flat = whole_numbers(alloc, count)?;
    for number in 0..count {
        let next = (number + 1) % count;
        flat.rules.push(Rule::Below(slot(number), slot(next)))?;
    }
    Ok(flat)
}

/// Three whole numbers in a circle, each of which is one less than the next. No sum of such rules is looked for.
pub fn creeping_circle(alloc: Global) -> Result<Flat, AllocError> {
    let mut flat = whole_numbers(alloc, 3)?;
    for number in 0..3 {
        let more = sum(alloc, slot(number), whole(1))?;
        flat.rules.push(Rule::Equal(more, slot((number + 1) % 3)))?;
    }
    Ok(flat)
}

/// Three whole numbers, of which the third is above 0, and the first with it at most the second, which is at most the first.
pub fn ends_as_it_starts(alloc: Global) -> Result<Flat, AllocError> {
    let mut flat = whole_numbers(alloc, 3)?;
    let end = sum(alloc, slot(0), slot(2))?;
    flat.rules.push(Rule::AtMost(end, slot(1)))?;
    flat.rules.push(Rule::AtMost(slot(1), slot(0)))?;
    flat.rules.push(Rule::Below(whole(0), slot(2)))?;
    Ok(flat)
}

/// One whole number that is at least the greatest, or above it.
pub fn at_end(alloc: Global, above: bool) -> Result<Flat, AllocError> {
    let mut flat = whole_numbers(alloc, 1)?;
    let greatest = whole(i128::from(GREATEST));
    flat.rules.push(if above {
        Rule::Below(greatest, slot(0))
    } else {
        Rule::AtMost(greatest, slot(0))
    })?;
    Ok(flat)
}

/// Two whole numbers, of which the square of the first and no part of the second are to be 2.
pub fn no_root(alloc: Global) -> Result<Flat, AllocError> {
    let mut flat = whole_numbers(alloc, 2)?;
    let square = product(alloc, slot(0), slot(0))?;
    let nothing = product(alloc, whole(0), slot(1))?;
    flat.rules
        .push(Rule::Equal(sum(alloc, square, nothing)?, whole(2)))?;
    Ok(flat)
}

/// Two numbers from 0 to 1,000,000, each of which is at one of its ends. No rule takes anything away before a decision.
pub fn at_either_end(alloc: Global) -> Result<Flat, AllocError> {
    let mut flat = slots(alloc, 2, 0, 1_000_000)?;
    flat.rules.push(either_end(alloc, 0)?)?;
    flat.rules.push(either_end(alloc, 1)?)?;
    Ok(flat)
}

/// A slot that is 0 or 1,000,000.
fn either_end(alloc: Global, number: u32) -> Result<Rule, AllocError> {
    let least = Rule::Equal(slot(number), whole(0));
    let greatest = Rule::Equal(slot(number), whole(1_000_000));
    Ok(Rule::Either(Boxed::new(alloc, least)?, Boxed::new(alloc, greatest)?))
}
