ghost use Rattle.std.specs.Prelude.{◌≡◌, ◌≢◌, ◌<◌, ◌≤◌, ◌^◌, List, ℤ, length, true, false};
ghost use Rattle.box_eval.specs.declared.bounds.Pair.{Pair};
ghost use Rattle.box_eval.specs.Box.{low_at, high_at, IsBox, IsPointOf, IsInside, IsOnePoint};
ghost use Rattle.box_eval.specs.Truth.{true_at};
ghost use Rattle.box_eval.specs.Verdict.{verdict_of, span_of};
ghost use Rattle.box_eval.specs.Reach.{slot_bound, term_slot_bound, reach_of, term_reach};

use crate::verdict::{Span, between, both, combined, compared, either, negated, truth_span};
use crate::{Ends, Rule, Term, Verdict};

/// What a box says of a rule: true or false at each of its points, or open.
///
/// A term has a least and a greatest value in the box, worked out from those of its parts, and a
/// comparison is true or false if the ends alone decide it. On a smaller box the verdict stays,
/// and on a box of one point it is never open.
///
/// Each slot of the rule is below the number of slots of the box, and each term within the rule,
/// those inside other terms and inside [`Term::Truth`] too, has a least and a greatest value there
/// whose magnitudes are at most 2^120. It takes no memory.
pub fn judge<E: Ends>(rule: &Rule, ends: &E) -> Verdict
    requires slots { slot_bound rule.now ≤ length (E.ends ends.now) }
    requires reach { reach_of (E.ends ends.now) rule.now ≤ 2 ^ 120 }

    ensures verdict { result ≡ verdict_of (E.ends ends.now) rule.now }
    ensures true_at_points { result ≡ Verdict.True
        → (point : List ℤ) → IsPointOf (E.ends ends.now) point → true_at point rule.now ≡ true }
    ensures false_at_points { result ≡ Verdict.False
        → (point : List ℤ) → IsPointOf (E.ends ends.now) point → true_at point rule.now ≡ false }
    ensures same_within { result ≢ Verdict.Open
        → (smaller : List Pair) → IsBox smaller → IsInside smaller (E.ends ends.now)
        → verdict_of smaller rule.now ≡ result }
    ensures decided { IsOnePoint (E.ends ends.now) → result ≢ Verdict.Open }
{
    verdict_on(rule, ends)
}

#[cycle(looks)]
fn verdict_on<E: Ends>(rule: &Rule, ends: &E) -> Verdict
    requires slots { slot_bound rule.now ≤ length (E.ends ends.now) }
    requires reach { reach_of (E.ends ends.now) rule.now ≤ 2 ^ 120 }
    ensures { result ≡ verdict_of (E.ends ends.now) rule.now }
{
    match rule {
        Rule::Always => Verdict::True,
        Rule::Below(a, b) | Rule::AtMost(a, b) | Rule::Equal(a, b) | Rule::Differ(a, b) => {
            compared(rule, part_span(a, ends), part_span(b, ends))
        }
        // The second part isn't looked at if the first decides.
        Rule::Both(a, b) => match verdict_on(a.get(), ends) {
            Verdict::False => Verdict::False,
            first => both(first, verdict_on(b.get(), ends)),
        },
        Rule::Either(a, b) => match verdict_on(a.get(), ends) {
            Verdict::True => Verdict::True,
            first => either(first, verdict_on(b.get(), ends)),
        },
        Rule::Not(a) => negated(verdict_on(a.get(), ends)),
    }
}

/// The least and the greatest value of a term in a box. It stands in place of its calls, so that a number or a slot takes none:
/// a call of `span` saves registers, and sets its locals to zero.
#[inline(always)]
#[cycle(looks)]
fn part_span<E: Ends>(term: &Term, ends: &E) -> Span
    requires slots { term_slot_bound term.now ≤ length (E.ends ends.now) }
    requires reach { term_reach (E.ends ends.now) term.now ≤ 2 ^ 120 }
    ensures { result ≡ span_of (E.ends ends.now) term.now }
{
    match term {
        Term::Whole(number) => between(*number, *number),
        Term::Slot(slot) => slot_span(*slot, ends),
        _ => span(term, ends),
    }
}

/// The least and the greatest value of a term in a box.
#[cycle(looks)]
fn span<E: Ends>(term: &Term, ends: &E) -> Span
    requires slots { term_slot_bound term.now ≤ length (E.ends ends.now) }
    requires reach { term_reach (E.ends ends.now) term.now ≤ 2 ^ 120 }
    ensures { result ≡ span_of (E.ends ends.now) term.now }
{
    match term {
        Term::Whole(number) => between(*number, *number),
        Term::Slot(slot) => slot_span(*slot, ends),
        Term::Sum(a, b) | Term::Less(a, b) | Term::Times(a, b) => {
            combined(term, part_span(a.get(), ends), part_span(b.get(), ends))
        }
        Term::Truth(rule) => truth_span(verdict_on(rule.get(), ends)),
    }
}

/// The ends of a slot.
fn slot_span<E: Ends>(slot: u32, ends: &E) -> Span
    requires { slot < length (E.ends ends.now) }
    ensures least { result.least ≡ low_at (E.ends ends.now) slot }
    ensures greatest { result.greatest ≡ high_at (E.ends ends.now) slot }
{
    between(i128::from(ends.low(slot)), i128::from(ends.high(slot)))
}
