//! Sums of linear rules that are only guessed: whoever takes one tests it, so no contract says what it is.

use arrayvec::ArrayVec;
use box_eval::{Flat, Rule, Term};
use osc_base::gcd;
use search_laws::{MOST_PICKS, Pick};

/// The most slots of a rule or a sum that is looked at.
const MOST_PARTS: usize = 64;

/// The most often that a rule is taken.
const MOST_TIMES: u128 = 1_000_000;

/// A slot of a linear form, and its factor.
#[derive(Debug, Default, Clone, Copy)]
pub struct Part {
    pub slot: u32,
    pub factor: i128,
    /// Whether no rule takes this slot away.
    pub is_kept: bool,
}

/// The slots and factors of a linear form.
#[derive(Drop)]
struct Form {
    parts: ArrayVec<Part, MOST_PARTS>,
}

impl Form {
    fn new() -> Form {
        Form {
            parts: ArrayVec::new(),
        }
    }

    /// Adds to the factor of a slot.
    fn add(&mut self, slot: u32, more: i128) -> Option<()> {
        for place in 0..self.parts.len() {
            if let Some(part) = self.parts.get_mut(place) {
                if part.slot == slot {
                    part.factor = part.factor.checked_add(more)?;
                    return Some(());
                }
            }
        }
        let part = Part {
            slot,
            factor: more,
            is_kept: false,
        };
        self.parts.try_push(part).ok()
    }

    /// Adds a rule's factors, so many times each, if it is linear.
    fn add_rule(&mut self, flat: &Flat, rule: u32, times: i128) -> Option<()> {
        match flat.rules.as_slice().get(rule as usize)? {
            Rule::Below(a, b) => self.add_difference(a, b, times),
            Rule::AtMost(a, b) => self.add_difference(a, b, times),
            _ => None,
        }
    }

    fn add_difference(&mut self, a: &Term, b: &Term, times: i128) -> Option<()> {
        self.add_term(a, times)?;
        self.add_term(b, times.checked_neg()?)
    }

    fn add_term(&mut self, term: &Term, times: i128) -> Option<()> {
        match term {
            Term::Whole(_) => Some(()),
            Term::Slot(slot) => self.add(*slot, times),
            Term::Sum(a, b) => {
                self.add_term(a.get(), times)?;
                self.add_term(b.get(), times)
            }
            Term::Less(a, b) => {
                self.add_term(a.get(), times)?;
                self.add_term(b.get(), times.checked_neg()?)
            }
            Term::Times(a, b) => {
                if let Term::Whole(number) = a.get() {
                    self.add_term(b.get(), times.checked_mul(*number)?)
                } else if let Term::Whole(number) = b.get() {
                    self.add_term(a.get(), times.checked_mul(*number)?)
                } else {
                    None
                }
            }
            Term::Truth(_) => None,
        }
    }

    /// Takes each factor so many times.
    fn scale(&mut self, times: i128) -> Option<()> {
        for place in 0..self.parts.len() {
            if let Some(part) = self.parts.get_mut(place) {
                part.factor = part.factor.checked_mul(times)?;
            }
        }
        Some(())
    }

    /// The factor of a slot.
    fn factor_of(&self, slot: u32) -> i128 {
        for part in self.parts.as_slice() {
            if part.slot == slot {
                return part.factor;
            }
        }
        0
    }
}

/// A sum of rules that is being made.
#[derive(Drop)]
pub struct Adding {
    form: Form,
    picks: ArrayVec<Pick, MOST_PICKS>,
}

impl Adding {
    /// An empty sum.
    pub(crate) fn new() -> Adding {
        Adding {
            form: Form::new(),
            picks: ArrayVec::new(),
        }
    }

    pub(crate) fn parts(&self) -> &[Part] {
        self.form.parts.as_slice()
    }

    /// The rules of the sum, in ascending order.
    pub(crate) fn picks(&self) -> &[Pick] {
        self.picks.as_slice()
    }

    /// Begins with a rule, if it is linear.
    pub(crate) fn start(&mut self, flat: &Flat, rule: u32) -> Option<()> {
        self.form.add_rule(flat, rule, 1)?;
        self.pick(rule, 1)
    }

    /// Adds a rule such that the slot of a part is cancelled, or keeps this slot if the rule can't do so.
    ///
    /// There is no sum if its numbers grow too large.
    pub(crate) fn cancel(&mut self, flat: &Flat, place: usize, rule: u32) -> Option<()> {
        let part = self.form.parts.get_mut(place)?;
        let Part { slot, factor, .. } = *part;
        let against = factor_in(flat, rule, slot);
        if against == 0 || (against > 0) == (factor > 0) {
            part.is_kept = true;
            return Some(());
        }
        self.combine(flat, rule, factor.unsigned_abs(), against.unsigned_abs())
    }

    /// Takes the sum and a rule so often that two of their factors, which are of these sizes, cancel each other.
    fn combine(&mut self, flat: &Flat, rule: u32, own: u128, other: u128) -> Option<()> {
        let common = gcd(own, other);
        let scale = few(other.checked_div(common)?)?;
        let times = few(own.checked_div(common)?)?;
        self.scale(scale)?;
        self.form.add_rule(flat, rule, i128::from(times))?;
        self.pick(rule, times)
    }

    /// Takes the whole sum so many times.
    fn scale(&mut self, times: u32) -> Option<()> {
        if times == 1 {
            return Some(());
        }
        self.form.scale(i128::from(times))?;
        for place in 0..self.picks.len() {
            if let Some(pick) = self.picks.get_mut(place) {
                pick.times = pick.times.checked_mul(times)?;
            }
        }
        Some(())
    }

    /// Picks a rule so many times more, such that rules stay in ascending order.
    fn pick(&mut self, rule: u32, times: u32) -> Option<()> {
        for place in 0..self.picks.len() {
            if let Some(pick) = self.picks.get_mut(place) {
                if pick.rule == rule {
                    pick.times = pick.times.checked_add(times)?;
                    return Some(());
                }
                if pick.rule > rule {
                    return self.picks.try_insert(place, Pick { times, rule }).ok();
                }
            }
        }
        self.picks.try_push(Pick { times, rule }).ok()
    }
}

/// The factor of a slot in a rule, or 0 if the rule isn't linear.
fn factor_in(flat: &Flat, rule: u32, slot: u32) -> i128 {
    let mut form = Form::new();
    match form.add_rule(flat, rule, 1) {
        Some(()) => form.factor_of(slot),
        None => 0,
    }
}

/// A number of times, if it is small.
fn few(times: u128) -> Option<u32> {
    if times <= MOST_TIMES {
        Some(times as u32)
    } else {
        None
    }
}
