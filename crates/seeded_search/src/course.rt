//! The course of the search: turns until the queue is empty, decisions, and ways back.
ghost use Rattle.std.specs.Prelude.{◌≡◌, ◌<◌, ◌∷◌, [], length, true, Some, ◌<ℤ◌};
ghost use Rattle.box_eval.specs.Box.{low_at, high_at};
ghost use Rattle.search_laws.specs.record_trees.Record.{may_close};
ghost use Rattle.search_laws.specs.record_trees.Guided.{HasTwoPoints};
ghost use Rattle.search_plans.specs.Plans.{next_entry};
ghost use Rattle.bound_trail.specs.History.{present};
ghost use Rattle.seeded_search.specs.Runs.{Runs, IsLeft, IsShut, IsRetired, RanTo, Found, GoesOn, Staged, Tried};

use crate::places::{cut_line, enter_first, enter_second, first_false, next_here};
use crate::retiring::retire;
use crate::task::Task;
use crate::turns::{Turned, take_turn, wake};
use crate::work::Work;
use bound_trail::Trail;
use search_laws::{Decision, Line};
use search_plans::{Entry, wished};
use wake_ring::WakeRing;

/// What comes of taking turns.
#[derive(Clone, Copy)]
pub enum Ran {
    /// No rule waits.
    Settled,
    /// A cut was made.
    Cut,
    /// The rule of this number is false on the present box.
    Closed(u32),
    /// All cuts are made, and another is wanted.
    Spent,
}

/// How the search ends.
#[derive(Clone, Copy)]
pub enum End {
    /// No rule waits, and the present box has one point.
    Point,
    /// Every part is closed.
    Refuted,
    /// All cuts are made, and the present box and the parts that are left stay open.
    Undecided,
}

/// Takes turns until no rule waits, a cut is made, the present box closes or all cuts are made.
fn run_queue(task: &Task<'_>, work: &mut Work, trail: &mut Trail, ring: &mut WakeRing) -> Ran
    requires { Runs task.now work.old trail.old ring.old ring.old.items }
    ensures { RanTo task.now result work.old work.new trail.new ring.new }
{
    while let Some(number) = ring.take() {
        match take_turn(task, work, trail, ring, number) {
            Turned::Over => {}
            Turned::Cut => return Ran::Cut,
            Turned::Closed => return Ran::Closed(number),
            Turned::Spent => return Ran::Spent,
        }
    }
    Ran::Settled
}

/// Decides in the present box, which is settled, and marks the rules that are done by it.
fn decide(task: &Task<'_>, work: &mut Work, trail: &mut Trail, ring: &mut WakeRing, entry: &Entry)
    requires runs { Runs task.now work.old trail.old ring.old ring.old.items }
    requires empty { ring.old.items ≡ [] }
    requires room { work.old.made < task.now.cuts }
    requires entry { next_entry task.now.plan.now (present trail.old) ≡ Some entry.now }
    requires wide { low_at (present trail.old) entry.now.slot <ℤ high_at (present trail.old) entry.now.slot }
    ensures { GoesOn task.now work.old work.new trail.new ring.new }
{
    let slot = divide(task, work, trail, ring, entry);
    retire(task, work, trail, ring, slot);
}

/// Cuts the present box, which is settled, at the slot that is decided next, as it is wished and the next number picks it.
/// Returns the slot of the cut.
fn divide(
    task: &Task<'_>,
    work: &mut Work,
    trail: &mut Trail,
    ring: &mut WakeRing,
    entry: &Entry,
) -> u32
    requires runs { Runs task.now work.old trail.old ring.old ring.old.items }
    requires empty { ring.old.items ≡ [] }
    requires room { work.old.made < task.now.cuts }
    requires entry { next_entry task.now.plan.now (present trail.old) ≡ Some entry.now }
    requires wide { low_at (present trail.old) entry.now.slot <ℤ high_at (present trail.old) entry.now.slot }
    ensures goes_on { GoesOn task.now work.old work.new trail.new ring.new }
    ensures slot { result < length (present trail.new) }
{
    let cut = wished(&entry.wish, trail, entry.slot, work.draw());
    work.note(cut_line(cut));
    work.leave(cut, trail.mark());
    enter_first(trail, cut);
    work.count_cut(trail.mark());
    wake(task.lists, &work.marks, ring, cut.slot);
    cut.slot
}

/// Takes every rule out of the queue.
fn empty(ring: &mut WakeRing)
    ensures bound { ring.new.bound ≡ ring.old.bound }
    ensures items { ring.new.items ≡ [] }
{
    while let Some(_) = ring.take() {}
}

/// Goes back to the box of a decision, into its second part, and marks the rules that are done by it.
fn go_back(
    task: &Task<'_>,
    work: &mut Work,
    trail: &mut Trail,
    ring: &mut WakeRing,
    decision: Decision,
)
    requires { IsLeft task.now decision work.old trail.old ring.old }
    ensures { IsRetired task.now work.old trail.new work.new ring.new }
{
    enter_other(task, work, trail, ring, decision);
    retire(task, work, trail, ring, decision.cut.slot);
}

/// Goes back to the box of a decision, and into its second part.
fn enter_other(
    task: &Task<'_>,
    work: &mut Work,
    trail: &mut Trail,
    ring: &mut WakeRing,
    decision: Decision,
)
    requires { IsLeft task.now decision work.old trail.old ring.old }
    ensures entered { IsRetired task.now work.old trail.new work.new ring.new }
    ensures slot { decision.cut.slot < length (present trail.new) }
{
    trail.undo_to(decision.mark);
    work.unmark_to(decision.marked);
    enter_second(trail, decision.cut);
    empty(ring);
    wake(task.lists, &work.marks, ring, decision.cut.slot);
}

/// Goes on in the second part of the newest decision, if there is one, from a box that is closed.
fn leave(task: &Task<'_>, work: &mut Work, trail: &mut Trail, ring: &mut WakeRing) -> Option<End>
    requires { IsShut task.now work.old trail.old ring.old }
    ensures { Staged task.now result work.old work.new trail.new ring.new }
{
    match work.take_decision() {
        None => {
            trail.undo_to(0);
            Some(End::Refuted)
        }
        Some(decision) => {
            go_back(task, work, trail, ring, decision);
            None
        }
    }
}

/// Closes the present box by a rule, and goes on in the second part of the newest decision, if there is one.
fn close(
    task: &Task<'_>,
    work: &mut Work,
    trail: &mut Trail,
    ring: &mut WakeRing,
    number: u32,
) -> Option<End>
    requires runs { Runs task.now work.old trail.old ring.old (number ∷ ring.old.items) }
    requires closes { may_close task.now.flat.now.rules (present trail.old) number ≡ true }
    ensures { Staged task.now result work.old work.new trail.new ring.new }
{
    work.note(Line::Close { rule: number });
    leave(task, work, trail, ring)
}

/// Closes the present box by a sum, if a slot creeps and one is found, and goes on.
fn close_by_sum(
    task: &Task<'_>,
    work: &mut Work,
    trail: &mut Trail,
    ring: &mut WakeRing,
) -> Option<End>
    requires { Runs task.now work.old trail.old ring.old ring.old.items }
    ensures { Tried task.now result work.old work.new trail.new ring.new }
{
    if !work.reasons.is_wanted() {
        return None;
    }
    let sum = work.reasons.guess(task.flat);
    let picks = sum.picks();
    if !work.may_add(task.flat, trail, picks) {
        return None;
    }
    if !work.add(picks) {
        return None;
    }
    leave(task, work, trail, ring)
}

/// Closes the present box, which wants another cut, by the first rule that is false on it, or leaves it open.
fn give_up(task: &Task<'_>, work: &mut Work, trail: &mut Trail, ring: &mut WakeRing) -> Option<End>
    requires runs { Runs task.now work.old trail.old ring.old ring.old.items }
    requires all { work.old.made ≡ task.now.cuts }
    requires wide { HasTwoPoints (present trail.old) }
    ensures { Staged task.now result work.old work.new trail.new ring.new }
{
    match first_false(task.flat, trail) {
        Some(number) => close(task, work, trail, ring, number),
        None => Some(End::Undecided),
    }
}

/// Decides in the present box, which is settled, unless it has one point.
fn settle(task: &Task<'_>, work: &mut Work, trail: &mut Trail, ring: &mut WakeRing) -> Option<End>
    requires runs { Runs task.now work.old trail.old ring.old ring.old.items }
    requires empty { ring.old.items ≡ [] }
    ensures { Staged task.now result work.old work.new trail.new ring.new }
{
    let Some(entry) = next_here(task.plan, trail) else {
        return Some(End::Point);
    };
    if work.made == task.cuts {
        return give_up(task, work, trail, ring);
    }
    decide(task, work, trail, ring, &entry);
    None
}

/// Takes turns, and then what comes of them.
fn advance(task: &Task<'_>, work: &mut Work, trail: &mut Trail, ring: &mut WakeRing) -> Option<End>
    requires { Runs task.now work.old trail.old ring.old ring.old.items }
    ensures { Staged task.now result work.old work.new trail.new ring.new }
{
    match run_queue(task, work, trail, ring) {
        Ran::Cut => close_by_sum(task, work, trail, ring),
        Ran::Closed(number) => close(task, work, trail, ring, number),
        Ran::Spent => give_up(task, work, trail, ring),
        Ran::Settled => settle(task, work, trail, ring),
    }
}

/// Searches to the end.
pub(crate) fn go(task: &Task<'_>, work: &mut Work, trail: &mut Trail, ring: &mut WakeRing) -> End
    requires { Runs task.now work.old trail.old ring.old ring.old.items }
    ensures { Found task.now result work.new trail.new ring.new }
{
    loop {
        if let Some(end) = advance(task, work, trail, ring) {
            return end;
        }
    }
}
