ghost use Rattle.std.specs.Prelude.{◌≡◌, true, is_some, IfOk, IfSome};
ghost use Rattle.bound_trail.specs.History.{present};
ghost use Rattle.box_eval.specs.Box.{IsInside};
ghost use Rattle.box_eval.specs.Rules.{IsFlat};
ghost use Rattle.linear_sums.specs.Sums.{are_there};
ghost use Rattle.record_trees.specs.Record.{may_stand, may_add};
ghost use Rattle.refute_check.specs.Walk.{AreSums};

use arrayvec::ArrayVec;
use bound_trail::Trail;
use box_eval::Flat;
use linear_sums::{MOST_PICKS, Pick, sum_false};
use record_text::Picks;
use std::alloc::{AllocError, Global};

/// A 0 for each slot of a flat form: the room for the factors of a sum.
pub(crate) fn no_sums(alloc: Global, flat: &Flat) -> Result<Vec<i128>, AllocError>
    ensures { IfOk result (λ sums. AreSums flat.now sums.items) }
{
    vec![in alloc; 0; flat.bounds.pairs.as_slice().len()]
}

/// Whether a sum over the present box is accepted. `sums` has a 0 for each slot, before and after.
pub(crate) fn accepts_sum(flat: &Flat, trail: &Trail, picks: &Picks, sums: &mut [i128]) -> bool
    requires flat { IsFlat flat.now }
    requires inside { IsInside (present trail.now) flat.now.bounds.pairs }
    requires stand { may_stand picks.now ≡ true }
    requires sums { AreSums flat.now sums.old }
    ensures accepts { result ≡ may_add flat.now (present trail.now) picks.now }
    ensures sums { AreSums flat.now sums.new }
{
    // the present ends are a box
    let _mark = trail.mark();
    match picks_of(flat, picks) {
        Some(own) => sum_false(flat, own.as_slice(), trail, sums),
        None => false,
    }
}

/// The rules of a sum, if the flat form has each of them.
fn picks_of(flat: &Flat, picks: &Picks) -> Option<ArrayVec<Pick, MOST_PICKS>>
    requires { IsFlat flat.now }
    ensures there { is_some result ≡ are_there flat.now.rules picks.now }
    ensures picks { IfSome result (λ own. own.items ≡ picks.now) }
{
    let count = flat.rules.as_slice().len() as u64;
    let mut own = ArrayVec::new();
    let mut rest = picks.as_slice();
    while let [pick, later @ ..] = rest {
        if pick.rule >= count {
            return None;
        }
        own.push(Pick {
            times: pick.times,
            rule: pick.rule as u32,
        });
        rest = later;
    }
    Some(own)
}
