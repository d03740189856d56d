//! A guess of how many values the longest first part of a cut has on which a rule is false.
//!
//! The ends of a term mostly lie on a straight line over the number of values of the slot. So a rule's terms are worked out in two
//! first parts alone: the shortest, which has one value of the slot, and the longest, which has all but one. No clause says that
//! the guess is right: whoever asks for it judges the rule there.
ghost use Rattle.std.specs.Prelude.{◌<◌, ◌≤◌, length};
ghost use Rattle.box_eval.specs.Reach.{slot_bound, term_slot_bound};
ghost use Rattle.bound_trail.specs.History.{present};

use bound_trail::Trail;
use box_eval::{Ends, Pair, Rule, Side, Term};

/// The least and the greatest value of a term in the shortest first part, and in the longest.
#[derive(Clone, Copy)]
struct Spans {
    short: Pair,
    long: Pair,
}

/// The first parts of the cuts of a slot at one side.
#[derive(Drop)]
struct Parts<'a> {
    trail: &'a Trail,
    slot: u32,
    spans: Spans,
    /// How many values of the slot the longest part has.
    most: u64,
}

/// A guess of how many values of the slot, which has these ends, the longest first part has on which a rule is false.
pub(crate) fn guess(rule: &Rule, trail: &Trail, slot: u32, side: Side, ends: Pair) -> u64
    requires { slot_bound rule.now ≤ length (present trail.now) }
{
    let Pair { low, high } = ends;
    let spans = match side {
        Side::Low => both(between(low, low), between(low, high.wrapping_sub(1))),
        Side::High => both(between(high, high), between(low.wrapping_add(1), high)),
    };
    let most = high.abs_diff(low);
    let parts = Parts {
        trail,
        slot,
        spans,
        most,
    };
    last_part(rule, &parts, false)
}

/// How many values the longest part has on which a rule is true, or is false. If there is no such part, it has none.
#[cycle(guesses)]
fn last_part(rule: &Rule, parts: &Parts<'_>, truth: bool) -> u64
    requires { slot_bound rule.now ≤ length (present parts.now.trail.now) }
{
    match rule {
        Rule::Always => everywhere(truth, parts.most),
        Rule::Below(a, b) | Rule::AtMost(a, b) | Rule::Equal(a, b) | Rule::Differ(a, b) => {
            last_compared(
                rule,
                truth,
                spans_of(a, parts),
                spans_of(b, parts),
                parts.most,
            )
        }
        Rule::Both(a, b) | Rule::Either(a, b) => {
            let first = last_part(a.get(), parts, truth);
            let each = wants_each(rule, truth);
            if each && first == 0 {
                0
            } else {
                joined(each, first, last_part(b.get(), parts, truth))
            }
        }
        Rule::Not(a) => last_part(a.get(), parts, !truth),
    }
}

/// The least and the greatest value of a term in both parts.
#[cycle(guesses)]
fn spans_of(term: &Term, parts: &Parts<'_>) -> Spans
    requires { term_slot_bound term.now ≤ length (present parts.now.trail.now) }
{
    match term {
        Term::Whole(number) => same(i64::try_from(*number).unwrap_or(i64::MAX)),
        Term::Slot(slot) => slot_spans(*slot, parts),
        Term::Sum(a, b) | Term::Less(a, b) | Term::Times(a, b) => {
            combined(term, spans_of(a.get(), parts), spans_of(b.get(), parts))
        }
        Term::Truth(rule) => {
            let on = last_part(rule.get(), parts, true);
            let off = last_part(rule.get(), parts, false);
            both(truth_span(on, off, 1), truth_span(on, off, parts.most))
        }
    }
}

/// The ends of a slot in both parts.
fn slot_spans(slot: u32, parts: &Parts<'_>) -> Spans
    requires { slot < length (present parts.now.trail.now) }
{
    if slot == parts.slot {
        parts.spans
    } else {
        let ends = between(parts.trail.low(slot), parts.trail.high(slot));
        both(ends, ends)
    }
}

/// The span of the truth of a rule in a part, from how many values the longest part has on which it is true, and is false.
fn truth_span(on: u64, off: u64, count: u64) -> Pair {
    between(i64::from(count <= on), i64::from(off < count))
}

/// Whether a row of rules is true, or false, only where each of them is.
fn wants_each(rule: &Rule, truth: bool) -> bool {
    matches!(rule, Rule::Both(_, _)) == truth
}

fn joined(each: bool, first: u64, second: u64) -> u64 {
    if each {
        first.min(second)
    } else {
        first.max(second)
    }
}

fn everywhere(truth: bool, most: u64) -> u64 {
    if truth { most } else { 0 }
}

fn same(number: i64) -> Spans {
    both(between(number, number), between(number, number))
}

fn both(short: Pair, long: Pair) -> Spans {
    Spans { short, long }
}

fn between(low: i64, high: i64) -> Pair {
    Pair { low, high }
}

/// The spans of a sum, a difference or a product.
fn combined(term: &Term, a: Spans, b: Spans) -> Spans {
    both(
        worked_out(term, a.short, b.short),
        worked_out(term, a.long, b.long),
    )
}

/// The span of a sum, a difference or a product in a part.
fn worked_out(term: &Term, a: Pair, b: Pair) -> Pair {
    match term {
        Term::Sum(_, _) => between(a.low.wrapping_add(b.low), a.high.wrapping_add(b.high)),
        Term::Less(_, _) => between(a.low.wrapping_sub(b.high), a.high.wrapping_sub(b.low)),
        _ => {
            let p = a.low.wrapping_mul(b.low);
            let q = a.low.wrapping_mul(b.high);
            let r = a.high.wrapping_mul(b.low);
            let s = a.high.wrapping_mul(b.high);
            between(p.min(q).min(r.min(s)), p.max(q).max(r.max(s)))
        }
    }
}

/// How many values the longest part has on which a comparison is true, or is false, from the spans of its two sides.
fn last_compared(rule: &Rule, truth: bool, a: Spans, b: Spans, most: u64) -> u64 {
    match (rule, truth) {
        (Rule::Below(_, _), true) => last_over(b, a, 1, most),
        (Rule::Below(_, _), false) => last_over(a, b, 0, most),
        (Rule::AtMost(_, _), true) => last_over(b, a, 0, most),
        (Rule::AtMost(_, _), false) => last_over(a, b, 1, most),
        (Rule::Equal(_, _), true) | (Rule::Differ(_, _), false) => {
            last_over(a, b, 0, most).min(last_over(b, a, 0, most))
        }
        _ => last_over(a, b, 1, most).max(last_over(b, a, 1, most)),
    }
}

/// How many values the longest part has in which the first is above the second by so much, if their ends lie on straight lines.
fn last_over(a: Spans, b: Spans, by: i64, most: u64) -> u64 {
    let short = a.short.low.wrapping_sub(b.short.high).wrapping_sub(by);
    let long = a.long.low.wrapping_sub(b.long.high).wrapping_sub(by);
    if short < 0 {
        0
    } else if 0 <= long {
        most
    } else {
        crossing(short.unsigned_abs(), long.unsigned_abs(), most)
    }
}

/// How many values the longest part has in which a straight line isn't below 0. It is so far above 0 in the shortest part, and so
/// far below in the longest.
fn crossing(above: u64, below: u64, most: u64) -> u64
    requires { 0 < below }
{
    let way = u128::from(above).wrapping_mul(u128::from(most.wrapping_sub(1)));
    let further = way / (u128::from(above) + u128::from(below));
    u64::try_from(further).unwrap_or(0).wrapping_add(1)
}
