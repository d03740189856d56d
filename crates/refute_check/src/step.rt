ghost use Rattle.std.specs.Prelude.{◌≡◌, ◌<◌, ◌≤◌, ◌∷◌, length, is_some, IfSome, true};
ghost use Rattle.bound_trail.specs.History.{mark_of, present, with_box};
ghost use Rattle.box_eval.specs.Box.{cut_at, first_part, IsInside, IsCutOf};
ghost use Rattle.record_trees.specs.Record.{may_cut, may_close};
ghost use Rattle.box_eval.specs.Rules.{IsFlat};
ghost use Rattle.record_text.specs.Lines.{IsShort};
ghost use Rattle.record_text.specs.Rest.{node_line};
ghost use Rattle.record_text.specs.WholeLines.{whole_line};
ghost use Rattle.refute_check.specs.Stack.{rest};
ghost use Rattle.refute_check.specs.Walk.{place, mark, AllWait, AreSums, IsStanding, trail_cut, trail_leaf, trail_after, waiting, stack_after};

use crate::cuts::{set_first, set_second};
use crate::stack::{Pending, Stack};
use crate::sums::accepts_sum;
use bound_trail::Trail;
use box_eval::{Cut, Ends, Flat, Side, Verdict, judge};
use record_text::{Picks, ReadLine};

/// The cut of the present box, if it is accepted.
fn accepted_cut(trail: &Trail, side: Side, slot: u64, value: i64) -> Option<Cut>
    ensures accepts { is_some result ≡ may_cut trail.now.room (present trail.now) (mark_of trail.now) (cut_at side slot value) }
    ensures cut { IfSome result (λ cut. cut ≡ cut_at side slot value) }
{
    // there are fewer than 2^32 slots
    let _mark = trail.mark();
    if trail.room() == 0 || slot >= u64::from(trail.len()) {
        return None;
    }
    let slot = slot as u32;
    if trail.low(slot) <= value && value < trail.high(slot) {
        Some(Cut { side, slot, value })
    } else {
        None
    }
}

/// Whether a close of the present box is accepted.
fn accepts_close(flat: &Flat, trail: &Trail, rule: u64) -> bool
    requires flat { IsFlat flat.now }
    requires inside { IsInside (present trail.now) flat.now.bounds.pairs }
    ensures { result ≡ may_close flat.now.rules (present trail.now) rule }
{
    // the present ends are a box
    let _mark = trail.mark();
    let rules = flat.rules.as_slice();
    if rule >= rules.len() as u64 {
        return false;
    }
    matches!(judge(&rules[rule as usize], trail), Verdict::False)
}

/// Goes to the first part of a cut, whose second then waits.
fn enter(trail: &mut Trail, stack: &mut Stack, cut: Cut)
    requires cuts { IsCutOf (present trail.old) cut }
    requires room { mark_of trail.old < trail.old.room }
    requires stack_room { length stack.old.items < stack.old.room }
    ensures trail { trail.new ≡ trail_cut trail.old cut }
    ensures stack { stack.new ≡ record { items = waiting trail.old cut ∷ stack.old.items; room = stack.old.room } }
{
    let mark = trail.mark();
    stack.push(Pending { cut, mark });
    set_first(trail, cut);
}

/// Goes to the second part of the latest cut that waits, if any does.
fn leave(trail: &mut Trail, stack: &mut Stack)
    requires wait { AllWait trail.old.boxes (mark_of trail.old) stack.old.items }
    requires some { 0 < length trail.old.boxes }
    requires few { mark_of trail.old ≤ trail.old.room }
    ensures trail { trail.new ≡ trail_leaf trail.old stack.old.items }
    ensures stack { stack.new ≡ record { items = rest stack.old.items; room = stack.old.room } }
{
    if let Some(pending) = stack.pop() {
        trail.undo_to(pending.mark);
        set_second(trail, pending.cut);
    }
}

/// Takes a line at the present box, with the rules of the sum if it is one, and says whether it is accepted. Where it isn't, nothing changes.
pub(crate) fn step(
    flat: &Flat,
    trail: &mut Trail,
    stack: &mut Stack,
    sums: &mut [i128],
    line: ReadLine,
    picks: &Picks,
) -> bool
    requires flat { IsFlat flat.now }
    requires short { IsShort (whole_line picks.now line) }
    requires sums { AreSums flat.now sums.old }
    requires standing { IsStanding flat.now.bounds.pairs trail.old stack.old.items }
    requires rooms { stack.old.room ≡ trail.old.room }
    ensures accepts { result ≡ mark flat.now trail.old.room (place (present trail.old) (mark_of trail.old)) (node_line (whole_line picks.now line)) }
    ensures trail { result ≡ true → trail.new ≡ trail_after trail.old stack.old.items (node_line (whole_line picks.now line)).line }
    ensures stack { result ≡ true → stack.new ≡ record { items = stack_after trail.old stack.old.items (node_line (whole_line picks.now line)).line; room = stack.old.room } }
    ensures sums { AreSums flat.now sums.new }
{
    match line {
        ReadLine::Cut { side, slot, value } => match accepted_cut(trail, side, slot, value) {
            Some(cut) => {
                enter(trail, stack, cut);
                true
            }
            None => false,
        },
        ReadLine::Close { rule } => {
            let accepted = accepts_close(flat, trail, rule);
            if accepted {
                leave(trail, stack);
            }
            accepted
        }
        ReadLine::Sum => {
            let accepted = accepts_sum(flat, trail, picks, sums);
            if accepted {
                leave(trail, stack);
            }
            accepted
        }
        _ => {
            leave(trail, stack);
            true
        }
    }
}
