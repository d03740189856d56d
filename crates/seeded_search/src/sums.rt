//! Whether a sum closes the present box.
ghost use Rattle.std.specs.Prelude.{◌≡◌, ◌≤◌, ◌&&◌, true, nat_le, length, IfOk};
ghost use Rattle.bound_trail.specs.History.{present};
ghost use Rattle.box_eval.specs.Box.{IsInside};
ghost use Rattle.box_eval.specs.Rules.{IsFlat};
ghost use Rattle.search_laws.specs.linear_sums.Sums.{are_there};
ghost use Rattle.search_laws.specs.record_trees.Record.{are_in_order, may_add, may_stand};

use bound_trail::Trail;
use box_eval::Flat;
use search_laws::{MOST_PICKS, Pick, sum_false};
use std::alloc::{AllocError, Global};
use std::marker::Model;

/// The most often that a rule is taken.
const MOST_TIMES: u32 = 1_000_000;

/// A 0 for each slot: the room for the factors of a sum. A contract sees how many there are.
#[derive(Drop)]
pub struct Sums {
    items: Vec<i128>,
}

impl Model for Sums {
    ghost use Rattle.std.specs.Prelude.{ℕ, length};
    ghost use Rattle.search_laws.specs.linear_sums.Sums.{IsClear};

    ghost Value = { ℕ };

    ghost view = { λ s. length s.items.items };

    ghost invariant = { λ s. IsClear s.items.items };
}

impl Sums {
    /// Room for so many slots.
    pub(crate) fn new(alloc: Global, slots: usize) -> Result<Sums, AllocError>
        ensures { IfOk result (λ s. s ≡ slots) }
    {
        let items = vec![in alloc; 0; slots]?;
        Ok(Sums { items })
    }

    /// Whether the sum of these rules closes the present box.
    pub(crate) fn may_add(&mut self, flat: &Flat, trail: &Trail, picks: &[Pick]) -> bool
        requires flat { IsFlat flat.now }
        requires inside { IsInside (present trail.now) flat.now.bounds.pairs }
        requires slots { self.old ≡ length flat.now.bounds.pairs }
        ensures may { result ≡ true → may_add flat.now (present trail.now) picks.now ≡ true }
        ensures same { self.new ≡ self.old }
    {
        // the present ends are a box
        let _mark = trail.mark();
        if !may_stand(picks) {
            return false;
        }
        if !are_there(flat, picks) {
            return false;
        }
        sum_false(flat, picks, trail, self.items.as_mut_slice())
    }
}

/// Whether these rules may stand in a line.
fn may_stand(picks: &[Pick]) -> bool
    ensures { result ≡ may_stand picks.now }
{
    !picks.is_empty() && picks.len() <= MOST_PICKS && are_in_order(picks)
}

/// Whether they are in ascending order, each taken 1 to 1,000,000 times.
fn are_in_order(picks: &[Pick]) -> bool
    ensures { result ≡ are_in_order 0 picks.now }
{
    let mut from: u64 = 0;
    let mut rest = picks;
    while let [pick, later @ ..] = rest {
        if !is_in_order(from, *pick) {
            return false;
        }
        from = u64::from(pick.rule) + 1;
        rest = later;
    }
    true
}

fn is_in_order(from: u64, pick: Pick) -> bool
    ensures { result ≡ (nat_le from pick.rule && nat_le 1 pick.times && nat_le pick.times 1000000) }
{
    from <= u64::from(pick.rule) && 1 <= pick.times && pick.times <= MOST_TIMES
}

/// Whether the flat form has each of these rules.
fn are_there(flat: &Flat, picks: &[Pick]) -> bool
    ensures { result ≡ are_there flat.now.rules picks.now }
{
    let count = flat.rules.as_slice().len() as u64;
    let mut rest = picks;
    while let [pick, later @ ..] = rest {
        if u64::from(pick.rule) >= count {
            return false;
        }
        rest = later;
    }
    true
}
