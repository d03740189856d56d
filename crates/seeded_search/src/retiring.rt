//! Rules that are true once their slots have one value each: they are done without a turn.
ghost use Rattle.std.specs.Prelude.{◌≡◌, ◌<◌, length};
ghost use Rattle.wake_ring.specs.Order.{AllBelow};
ghost use Rattle.bound_trail.specs.History.{present};
ghost use Rattle.seeded_search.specs.Runs.{Runs, IsRetired};

use crate::places::verdict_here;
use crate::task::Task;
use crate::work::Work;
use bound_trail::Trail;
use box_eval::{Ends, Verdict};
use wake_ring::WakeRing;

/// If the slot has one value, marks each waiting rule over it that is true and all of whose slots have one value.
pub(crate) fn retire(
    task: &Task<'_>,
    work: &mut Work,
    trail: &Trail,
    ring: &mut WakeRing,
    slot: u32,
)
    requires runs { Runs task.now work.old trail.now ring.old ring.old.items }
    requires slot { slot < length (present trail.now) }
    ensures { IsRetired task.now work.old trail.now work.new ring.new }
{
    if trail.low(slot) == trail.high(slot) {
        for number in task.lists.rules[slot as usize].as_slice() {
            retire_one(task, work, trail, ring, *number);
        }
    }
}

/// Marks a rule that waits, if it is true and all of its slots have one value. It then no longer waits.
fn retire_one(task: &Task<'_>, work: &mut Work, trail: &Trail, ring: &mut WakeRing, number: u32)
    requires runs { Runs task.now work.old trail.now ring.old ring.old.items }
    requires number { number < length task.now.flat.now.rules }
    ensures { IsRetired task.now work.old trail.now work.new ring.new }
{
    let slots = task.lists.slots[number as usize].as_slice();
    if work.marks.has(number) || !is_fixed(trail, slots) {
        return;
    }
    if let Verdict::True = verdict_here(task.flat, trail, number) {
        ring.remove(number);
        work.retire(number);
    }
}

/// Whether each of the slots has one value.
fn is_fixed(trail: &Trail, slots: &[u32]) -> bool
    requires { AllBelow (length (present trail.now)) slots.now }
{
    for slot in slots {
        if trail.low(*slot) != trail.high(*slot) {
            return false;
        }
    }
    true
}
