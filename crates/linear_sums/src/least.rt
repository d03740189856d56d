//! The least value of factors times slots in a box. The factors are taken off the row where they were gathered.
ghost use Rattle.std.specs.Prelude.{◌≡◌, ◌<◌, ◌≤◌, ◌^◌, ◌*◌, max, length, unsigned_abs, ◌-ℤ◌, ◌*ℤ◌};
ghost use Rattle.std.specs.Int.{int_min};
ghost use Rattle.box_eval.specs.Box.{value_of};
ghost use Rattle.box_eval.specs.Reach.{slot_bound, term_slot_bound};
ghost use Rattle.linear_sums.specs.Linear.{factor_of, form_of_rule, form_of_term};
ghost use Rattle.linear_sums.specs.Steps.{size_in, IsTaken};

use box_eval::{Ends, Rule, Term};

/// The least value of the parts at the slots of a rule. Their factors are 0 in the end.
pub(crate) fn take_rule<E: Ends>(rule: &Rule, ends: &E, sums: &mut [i128]) -> i128
    requires slots { slot_bound rule.now ≤ length (E.ends ends.now) }
    requires long { length sums.old ≡ length (E.ends ends.now) }
    requires small { size_in (value_of sums.old) (E.ends ends.now) ≤ 2 ^ 120 }
    ensures { IsTaken (E.ends ends.now) sums.old sums.new (form_of_rule rule.now).factor result }
{
    match rule {
        Rule::Below(a, b) => take_both(a, b, ends, sums),
        Rule::AtMost(a, b) => take_both(a, b, ends, sums),
        _ => 0,
    }
}

/// The same of a difference.
fn take_both<E: Ends>(a: &Term, b: &Term, ends: &E, sums: &mut [i128]) -> i128
    requires first_slots { term_slot_bound a.now ≤ length (E.ends ends.now) }
    requires second_slots { term_slot_bound b.now ≤ length (E.ends ends.now) }
    requires long { length sums.old ≡ length (E.ends ends.now) }
    requires small { size_in (value_of sums.old) (E.ends ends.now) ≤ 2 ^ 120 }
    ensures { IsTaken (E.ends ends.now) sums.old sums.new
        (λ slot. (form_of_term a.now).factor slot -ℤ (form_of_term b.now).factor slot) result }
{
    let first = take(a, ends, sums);
    let second = take(b, ends, sums);
    first + second
}

/// The same of a term.
fn take<E: Ends>(term: &Term, ends: &E, sums: &mut [i128]) -> i128
    requires slots { term_slot_bound term.now ≤ length (E.ends ends.now) }
    requires long { length sums.old ≡ length (E.ends ends.now) }
    requires small { size_in (value_of sums.old) (E.ends ends.now) ≤ 2 ^ 120 }
    ensures { IsTaken (E.ends ends.now) sums.old sums.new (form_of_term term.now).factor result }
{
    match term {
        Term::Whole(_) => 0,
        Term::Slot(slot) => take_at(*slot, ends, sums),
        Term::Sum(a, b) => {
            let first = take(a.get(), ends, sums);
            let second = take(b.get(), ends, sums);
            first + second
        }
        Term::Less(a, b) => {
            let first = take(a.get(), ends, sums);
            let second = take(b.get(), ends, sums);
            first + second
        }
        Term::Times(a, b) => {
            let first = take(a.get(), ends, sums);
            let second = take(b.get(), ends, sums);
            first + second
        }
        Term::Truth(_) => 0,
    }
}

/// The same of one slot.
fn take_at<E: Ends>(slot: u32, ends: &E, sums: &mut [i128]) -> i128
    requires slots { slot < length (E.ends ends.now) }
    requires long { length sums.old ≡ length (E.ends ends.now) }
    requires small { size_in (value_of sums.old) (E.ends ends.now) ≤ 2 ^ 120 }
    ensures { IsTaken (E.ends ends.now) sums.old sums.new (factor_of slot) result }
{
    let sum = sums[slot as usize];
    let least = lesser(sum, ends.low(slot), ends.high(slot));
    sums[slot as usize] = 0;
    least
}

/// The lesser of a number times each of two others.
fn lesser(number: i128, low: i64, high: i64) -> i128
    requires { unsigned_abs number * max (unsigned_abs low) (unsigned_abs high) ≤ 2 ^ 120 }
    ensures { result ≡ int_min (number *ℤ low) (number *ℤ high) }
{
    let first = number * i128::from(low);
    let second = number * i128::from(high);
    first.min(second)
}
