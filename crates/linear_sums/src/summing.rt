ghost use Rattle.std.specs.Prelude.{◌≡◌, ◌+◌, ◌*◌, ◌≤◌, ◌<◌, ◌^◌, true, length, pos, unsigned_abs, ◌+ℤ◌, ◌*ℤ◌};
ghost use Rattle.box_eval.specs.Box.{IsBox, IsInside, value_of};
ghost use Rattle.box_eval.specs.Rules.{IsEmpty, IsFlat};
ghost use Rattle.linear_sums.specs.Linear.{form_at, is_false_form, is_false_sum, sum_form, sum_weight, weight_at};
ghost use Rattle.linear_sums.specs.Steps.{HasRoom, IsAdded, IsTaken, size_in};
ghost use Rattle.linear_sums.specs.Sums.{AllThere, IsClear, weight_from, weight_with};

use crate::Pick;
use crate::forms::{constant_and_gap, gather_rule};
use crate::least::take_rule;
use crate::weighing::{weight_by_number, within};
use box_eval::{Ends, Flat};

/// Whether the sum of the picked rules is false on a box inside that of the flat form.
///
/// `sums` has one 0 for each slot, and has them again in the end. It takes no memory, and reads the picked rules alone.
pub fn sum_false<E: Ends>(flat: &Flat, picks: &[Pick], ends: &E, sums: &mut [i128]) -> bool
    requires flat { IsFlat flat.now }
    requires there { AllThere flat.now.rules picks.now }
    requires is_box { IsBox (E.ends ends.now) }
    requires inside { IsInside (E.ends ends.now) flat.now.bounds.pairs }
    requires slots { length sums.old ≡ length flat.now.bounds.pairs }
    requires clear { IsClear sums.old }

    ensures verdict { result ≡ is_false_sum flat.now picks.now (E.ends ends.now) }
    ensures empty { result ≡ true → IsEmpty flat.now.rules (E.ends ends.now) }
    ensures slots { length sums.new ≡ length sums.old }
    ensures clear { IsClear sums.new }
{
    match weight_of_picks(flat, picks) {
        Some(_) => false_on(flat, picks, ends, sums),
        None => false,
    }
}

/// Whether the sum of picked rules is false, if they are linear and don't weigh too much.
fn false_on<E: Ends>(flat: &Flat, picks: &[Pick], ends: &E, sums: &mut [i128]) -> bool
    requires flat { IsFlat flat.now }
    requires there { AllThere flat.now.rules picks.now }
    requires linear { (sum_form flat.now.bounds.pairs flat.now.rules picks.now).linear ≡ true }
    requires weight { sum_weight flat.now.bounds.pairs flat.now.rules picks.now ≤ 2 ^ 120 }
    requires is_box { IsBox (E.ends ends.now) }
    requires inside { IsInside (E.ends ends.now) flat.now.bounds.pairs }
    requires slots { length sums.old ≡ length flat.now.bounds.pairs }
    requires clear { IsClear sums.old }

    ensures verdict { result ≡ is_false_form (sum_form flat.now.bounds.pairs flat.now.rules picks.now) (E.ends ends.now) }
    ensures slots { length sums.new ≡ length sums.old }
    ensures clear { IsClear sums.new }
{
    gather_picks(flat, picks, sums);
    let constant = constant_of_picks(flat, picks);
    let least = take_picks(flat, picks, ends, sums);
    constant + least > 0
}

/// The weight of picked rules, if they are linear and it is at most 2^120.
fn weight_of_picks(flat: &Flat, picks: &[Pick]) -> Option<u128>
    requires flat { IsFlat flat.now }
    requires there { AllThere flat.now.rules picks.now }
    ensures { result ≡ weight_from flat.now 0 picks.now }
{
    let mut total: u128 = 0;
    for pick in picks {
        match weight_with_pick(flat, total, *pick) {
            Some(more) => total = more,
            None => return None,
        }
    }
    Some(total)
}

fn weight_with_pick(flat: &Flat, total: u128, pick: Pick) -> Option<u128>
    requires flat { IsFlat flat.now }
    requires there { pick.rule < length flat.now.rules }
    ensures { result ≡ weight_with flat.now total pick }
{
    let weight = weight_by_number(flat, pick.rule)?;
    let more = weight.checked_mul(u128::from(pick.times))?;
    let sum = total.checked_add(more)?;
    within(sum)
}

/// Adds the factors of picked rules.
fn gather_picks(flat: &Flat, picks: &[Pick], sums: &mut [i128])
    requires flat { IsFlat flat.now }
    requires there { AllThere flat.now.rules picks.now }
    requires linear { (sum_form flat.now.bounds.pairs flat.now.rules picks.now).linear ≡ true }
    requires slots { length sums.old ≡ length flat.now.bounds.pairs }
    requires room { HasRoom sums.old (sum_weight flat.now.bounds.pairs flat.now.rules picks.now) }
    ensures { IsAdded sums.old sums.new (pos 1) (sum_form flat.now.bounds.pairs flat.now.rules picks.now).factor }
{
    for pick in picks {
        gather_pick(flat, *pick, sums);
    }
}

fn gather_pick(flat: &Flat, pick: Pick, sums: &mut [i128])
    requires flat { IsFlat flat.now }
    requires there { pick.rule < length flat.now.rules }
    requires linear { (form_at flat.now.bounds.pairs flat.now.rules pick.rule).linear ≡ true }
    requires slots { length sums.old ≡ length flat.now.bounds.pairs }
    requires room { HasRoom sums.old (pick.times * weight_at flat.now.bounds.pairs flat.now.rules pick.rule) }
    ensures { IsAdded sums.old sums.new (pos pick.times) (form_at flat.now.bounds.pairs flat.now.rules pick.rule).factor }
{
    gather_rule(
        &flat.rules.as_slice()[pick.rule as usize],
        i128::from(pick.times),
        sums,
    )
}

/// The constants and gaps of picked rules, added up.
fn constant_of_picks(flat: &Flat, picks: &[Pick]) -> i128
    requires flat { IsFlat flat.now }
    requires there { AllThere flat.now.rules picks.now }
    requires linear { (sum_form flat.now.bounds.pairs flat.now.rules picks.now).linear ≡ true }
    requires weight { sum_weight flat.now.bounds.pairs flat.now.rules picks.now ≤ 2 ^ 120 }
    ensures value { result ≡ (sum_form flat.now.bounds.pairs flat.now.rules picks.now).constant
        +ℤ (sum_form flat.now.bounds.pairs flat.now.rules picks.now).gap }
    ensures small { unsigned_abs result ≤ 2 ^ 121 }
{
    let mut total: i128 = 0;
    for pick in picks {
        total = total + constant_of_pick(flat, *pick);
    }
    total
}

fn constant_of_pick(flat: &Flat, pick: Pick) -> i128
    requires flat { IsFlat flat.now }
    requires there { pick.rule < length flat.now.rules }
    requires linear { (form_at flat.now.bounds.pairs flat.now.rules pick.rule).linear ≡ true }
    requires weight { pick.times * weight_at flat.now.bounds.pairs flat.now.rules pick.rule ≤ 2 ^ 120 }
    ensures value { result ≡ pos pick.times *ℤ ((form_at flat.now.bounds.pairs flat.now.rules pick.rule).constant
        +ℤ (form_at flat.now.bounds.pairs flat.now.rules pick.rule).gap) }
    ensures small { unsigned_abs result ≤ 2 * (pick.times * weight_at flat.now.bounds.pairs flat.now.rules pick.rule) }
{
    i128::from(pick.times) * constant_and_gap(&flat.rules.as_slice()[pick.rule as usize])
}

/// The least value of the factors that were gathered, times the slots. They are taken off.
fn take_picks<E: Ends>(flat: &Flat, picks: &[Pick], ends: &E, sums: &mut [i128]) -> i128
    requires flat { IsFlat flat.now }
    requires there { AllThere flat.now.rules picks.now }
    requires slots { length (E.ends ends.now) ≡ length flat.now.bounds.pairs }
    requires long { length sums.old ≡ length (E.ends ends.now) }
    requires small { size_in (value_of sums.old) (E.ends ends.now) ≤ 2 ^ 120 }
    ensures { IsTaken (E.ends ends.now) sums.old sums.new (sum_form flat.now.bounds.pairs flat.now.rules picks.now).factor result }
{
    let mut total: i128 = 0;
    for pick in picks {
        total = total + take_pick(flat, *pick, ends, sums);
    }
    total
}

fn take_pick<E: Ends>(flat: &Flat, pick: Pick, ends: &E, sums: &mut [i128]) -> i128
    requires flat { IsFlat flat.now }
    requires there { pick.rule < length flat.now.rules }
    requires slots { length (E.ends ends.now) ≡ length flat.now.bounds.pairs }
    requires long { length sums.old ≡ length (E.ends ends.now) }
    requires small { size_in (value_of sums.old) (E.ends ends.now) ≤ 2 ^ 120 }
    ensures { IsTaken (E.ends ends.now) sums.old sums.new (form_at flat.now.bounds.pairs flat.now.rules pick.rule).factor result }
{
    take_rule(&flat.rules.as_slice()[pick.rule as usize], ends, sums)
}
