//! The slots of a rule that have a factor other than 0, as long as they are two at most. They are taken off the row where the
//! factors were gathered.
ghost use Rattle.std.specs.Prelude.{◌≡◌, ◌<◌, ◌≤◌, length, ◌-ℤ◌};
ghost use Rattle.box_eval.specs.Reach.{slot_bound, term_slot_bound};
ghost use Rattle.linear_sums.specs.Linear.{factor_of, form_of_rule, form_of_term};
ghost use Rattle.linear_sums.specs.declared.seen.Seen.TheVariants.{Nothing};
ghost use Rattle.linear_sums.specs.Splits.{seen_with, IsSearched};

use box_eval::{Rule, Term};

/// The slots that were found to have a factor other than 0.
#[derive(Debug, Clone, Copy, PartialEq, Eq)]
pub(crate) enum Seen {
    /// None.
    Nothing,
    /// A slot, and its factor.
    One {
        slot: u32,
        factor: i128,
    },
    /// Two slots, in the order in which they were found, each with its factor.
    Two {
        one: u32,
        first: i128,
        other: u32,
        second: i128,
    },
    /// Three slots or more.
    More,
}

/// The slots that were found, with one more.
fn with_slot(seen: Seen, slot: u32, factor: i128) -> Seen
    ensures { result ≡ seen_with seen slot factor }
{
    match seen {
        Seen::Nothing => Seen::One { slot, factor },
        Seen::One {
            slot: one,
            factor: first,
        } => {
            Seen::Two {
                one,
                first,
                other: slot,
                second: factor,
            }
        }
        Seen::Two { .. } => Seen::More,
        Seen::More => Seen::More,
    }
}

/// Looks at the slots of a rule. Their numbers in the row are 0 in the end.
pub(crate) fn see_rule(rule: &Rule, sums: &mut [i128]) -> Seen
    requires { slot_bound rule.now ≤ length sums.old }
    ensures { IsSearched sums.old sums.new (form_of_rule rule.now).factor Nothing result }
{
    match rule {
        Rule::Below(a, b) => see_both(a, b, sums),
        Rule::AtMost(a, b) => see_both(a, b, sums),
        _ => Seen::Nothing,
    }
}

/// The same of a difference.
fn see_both(a: &Term, b: &Term, sums: &mut [i128]) -> Seen
    requires first_slots { term_slot_bound a.now ≤ length sums.old }
    requires second_slots { term_slot_bound b.now ≤ length sums.old }
    ensures { IsSearched sums.old sums.new
        (λ slot. (form_of_term a.now).factor slot -ℤ (form_of_term b.now).factor slot)
        Nothing result }
{
    let first = see_term(a, Seen::Nothing, sums);
    see_term(b, first, sums)
}

/// The same of a term, after the slots that were found before.
fn see_term(term: &Term, seen: Seen, sums: &mut [i128]) -> Seen
    requires { term_slot_bound term.now ≤ length sums.old }
    ensures { IsSearched sums.old sums.new (form_of_term term.now).factor seen result }
{
    match term {
        Term::Whole(_) => seen,
        Term::Slot(slot) => see_slot(*slot, seen, sums),
        Term::Sum(a, b) => {
            let first = see_term(a.get(), seen, sums);
            see_term(b.get(), first, sums)
        }
        Term::Less(a, b) => {
            let first = see_term(a.get(), seen, sums);
            see_term(b.get(), first, sums)
        }
        Term::Times(a, b) => {
            let first = see_term(a.get(), seen, sums);
            see_term(b.get(), first, sums)
        }
        Term::Truth(_) => seen,
    }
}

/// The same of one slot.
fn see_slot(slot: u32, seen: Seen, sums: &mut [i128]) -> Seen
    requires { slot < length sums.old }
    ensures { IsSearched sums.old sums.new (factor_of slot) seen result }
{
    let factor = sums[slot as usize];
    if factor == 0 {
        seen
    } else {
        sums[slot as usize] = 0;
        with_slot(seen, slot, factor)
    }
}
