//! The turn of a rule: what it takes away from the ends of its slots.
ghost use Rattle.std.specs.Prelude.{◌≡◌, ℕ, ◌+◌, ◌<◌, ◌≤◌, ◌^◌, length, ◌∷◌, [], true, false, if◌then◌else◌, slice_get, Some};
ghost use Rattle.wake_ring.specs.Queue.{is_in};
ghost use Rattle.wake_ring.specs.Order.{AllBelow};
ghost use Rattle.bound_trail.specs.History.{present};
ghost use Rattle.box_eval.specs.declared.cut.Side.{Side};
ghost use Rattle.box_eval.specs.Reads.{reads};
ghost use Rattle.box_eval.specs.declared.rule.Rule.{Rule};
ghost use Rattle.search_laws.specs.record_trees.Record.{may_close};
ghost use Rattle.box_eval.specs.Rules.{AllFit};
ghost use Rattle.box_eval.specs.Verdict.{verdict_of};
ghost use Rattle.search_laws.specs.Halves.{IsLongest};
ghost use Rattle.seeded_search.specs.Listed.{rules_at, slots_at};
ghost use Rattle.seeded_search.specs.Waking.{IsWokenFrom};
ghost use Rattle.seeded_search.specs.Runs.{Runs, IsCutBy, Stepped, TurnedTo};
ghost use Rattle.seeded_search.specs.Joined.{joined};

use crate::halving::longest;
use crate::lists::Lists;
use crate::marks::Marks;
use crate::places::{cut_line, enter_second, rule_at, verdict_here};
use crate::retiring::retire;
use crate::task::Task;
use crate::work::Work;
use bound_trail::Trail;
use box_eval::{Cut, Side, Verdict};
use search_laws::Line;
use wake_ring::WakeRing;

/// What comes of looking at some ends of slots in the turn of a rule.
#[derive(Clone, Copy)]
pub enum Step {
    /// The rule takes nothing away there.
    None,
    /// Cuts were made.
    Cut,
    /// All cuts are made, and another is wanted.
    Spent,
}

/// What comes of the turn of a rule.
#[derive(Clone, Copy)]
pub enum Turned {
    /// It has taken nothing away, and no longer waits.
    Over,
    /// Cuts were made.
    Cut,
    /// It is false on the present box.
    Closed,
    /// All cuts are made, and another is wanted.
    Spent,
}

/// Puts each rule over a slot that isn't done into the queue, in number order.
pub(crate) fn wake(lists: &Lists, marks: &Marks, ring: &mut WakeRing, slot: u32)
    requires slot { slot < length lists.now.rules.items }
    requires ring { AllBelow ring.old.bound (rules_at lists.now slot) }
    requires marks { marks.now.bound ≡ ring.old.bound }
    ensures bound { ring.new.bound ≡ ring.old.bound }
    ensures woken { IsWokenFrom (rules_at lists.now slot) marks.now.listed ring.old.items ring.new.items }
{
    for number in lists.rules[slot as usize].as_slice() {
        wake_one(marks, ring, *number);
    }
}

/// Puts a rule into the queue if it isn't done.
#[tactic(auto, using(crate::proofs::Wakings::woken_one))]
fn wake_one(marks: &Marks, ring: &mut WakeRing, number: u32)
    requires ring { number < ring.old.bound }
    requires marks { marks.now.bound ≡ ring.old.bound }
    ensures bound { ring.new.bound ≡ ring.old.bound }
    ensures woken { IsWokenFrom (number ∷ []) marks.now.listed ring.old.items ring.new.items }
{
    if !marks.has(number) {
        ring.add(number);
    }
}

/// Cuts off a part that the rule closes, and marks the rules that are done by it.
fn cut_off(
    task: &Task<'_>,
    work: &mut Work,
    trail: &mut Trail,
    ring: &mut WakeRing,
    number: u32,
    cut: Cut,
)
    requires runs { Runs task.now work.old trail.old ring.old (number ∷ ring.old.items) }
    requires number { number < length task.now.flat.now.rules }
    requires room { work.old.made < task.now.cuts }
    requires slot { is_in cut.slot (slots_at task.now.lists.now number) ≡ true }
    requires longest { IsLongest task.now.flat.now.rules (present trail.old) number cut }
    ensures { IsCutBy task.now work.old work.new trail.new ring.new }
{
    narrow_to(task, work, trail, ring, number, cut);
    retire(task, work, trail, ring, cut.slot);
}

/// Makes a cut whose first part the rule closes, goes on in the second, and wakes the rules over the slot.
fn narrow_to(
    task: &Task<'_>,
    work: &mut Work,
    trail: &mut Trail,
    ring: &mut WakeRing,
    number: u32,
    cut: Cut,
)
    requires runs { Runs task.now work.old trail.old ring.old (number ∷ ring.old.items) }
    requires number { number < length task.now.flat.now.rules }
    requires room { work.old.made < task.now.cuts }
    requires slot { is_in cut.slot (slots_at task.now.lists.now number) ≡ true }
    requires longest { IsLongest task.now.flat.now.rules (present trail.old) number cut }
    ensures { IsCutBy task.now work.old work.new trail.new ring.new }
{
    work.note(cut_line(cut));
    work.note(Line::Close { rule: number });
    work.remember(cut, number);
    enter_second(trail, cut);
    work.count_cut(trail.mark());
    wake(task.lists, &work.marks, ring, cut.slot);
}

/// Takes away what the rule takes away from a slot at one end.
fn narrow(
    task: &Task<'_>,
    work: &mut Work,
    trail: &mut Trail,
    ring: &mut WakeRing,
    number: u32,
    slot: u32,
    side: Side,
) -> Step
    requires runs { Runs task.now work.old trail.old ring.old (number ∷ ring.old.items) }
    requires number { number < length task.now.flat.now.rules }
    requires slot { is_in slot (slots_at task.now.lists.now number) ≡ true }
    ensures { Stepped task.now number (λ e s. (e ≡ side) × (s ≡ slot)) result work.old trail.old ring.old work.new trail.new ring.new }
{
    let Some(value) = longest(rule_at(task.flat, number), trail, slot, side) else {
        return Step::None;
    };
    if work.made == task.cuts {
        return Step::Spent;
    }
    cut_off(task, work, trail, ring, number, Cut { side, slot, value });
    Step::Cut
}

/// Takes away what the rule takes away from a slot, first at its low end, then at its high end.
fn narrow_both(
    task: &Task<'_>,
    work: &mut Work,
    trail: &mut Trail,
    ring: &mut WakeRing,
    number: u32,
    slot: u32,
) -> Step
    requires runs { Runs task.now work.old trail.old ring.old (number ∷ ring.old.items) }
    requires number { number < length task.now.flat.now.rules }
    requires slot { is_in slot (slots_at task.now.lists.now number) ≡ true }
    ensures { Stepped task.now number (λ e s. s ≡ slot) result work.old trail.old ring.old work.new trail.new ring.new }
{
    let first = narrow(task, work, trail, ring, number, slot, Side::Low);
    if let Step::Spent = first {
        return Step::Spent;
    }
    joined(
        first,
        narrow(task, work, trail, ring, number, slot, Side::High),
    )
}

/// What comes of two looks, one after the other, where the first left cuts to make.
fn joined(first: Step, second: Step) -> Step
    ensures { result ≡ joined first second }
{
    match second {
        Step::None => first,
        Step::Cut => Step::Cut,
        Step::Spent => Step::Spent,
    }
}

/// Takes away what the rule takes away from each of its slots, in ascending order.
fn sweep(
    task: &Task<'_>,
    work: &mut Work,
    trail: &mut Trail,
    ring: &mut WakeRing,
    number: u32,
) -> Step
    requires runs { Runs task.now work.old trail.old ring.old (number ∷ ring.old.items) }
    requires number { number < length task.now.flat.now.rules }
    ensures { Stepped task.now number (λ e s. is_in s (slots_at task.now.lists.now number) ≡ true) result work.old trail.old ring.old work.new trail.new ring.new }
{
    let mut step = Step::None;
    for slot in task.lists.slots[number as usize].as_slice() {
        step = joined(step, narrow_both(task, work, trail, ring, number, *slot));
        if let Step::Spent = step {
            return Step::Spent;
        }
    }
    step
}

/// The turn of a rule that isn't false on the present box: it takes away from its slots what it can.
fn take_open_turn(
    task: &Task<'_>,
    work: &mut Work,
    trail: &mut Trail,
    ring: &mut WakeRing,
    number: u32,
) -> Turned
    requires runs { Runs task.now work.old trail.old ring.old (number ∷ ring.old.items) }
    requires number { number < length task.now.flat.now.rules }
    requires unclosed { may_close task.now.flat.now.rules (present trail.old) number ≡ false }
    ensures { TurnedTo task.now number result work.old trail.old ring.old work.new trail.new ring.new }
{
    match sweep(task, work, trail, ring, number) {
        Step::None => Turned::Over,
        Step::Cut => Turned::Cut,
        Step::Spent => {
            ring.add(number);
            Turned::Spent
        }
    }
}

/// Takes the turn of a rule that waited.
pub(crate) fn take_turn(
    task: &Task<'_>,
    work: &mut Work,
    trail: &mut Trail,
    ring: &mut WakeRing,
    number: u32,
) -> Turned
    requires runs { Runs task.now work.old trail.old ring.old (number ∷ ring.old.items) }
    requires number { number < length task.now.flat.now.rules }
    ensures { TurnedTo task.now number result work.old trail.old ring.old work.new trail.new ring.new }
{
    match verdict_here(task.flat, trail, number) {
        Verdict::False => Turned::Closed,
        Verdict::True => {
            work.retire(number);
            Turned::Over
        }
        Verdict::Open => take_open_turn(task, work, trail, ring, number),
    }
}
