ghost use Rattle.std.specs.Prelude.{◌≡◌, ℕ, ◌+◌, ◌<◌, ◌≤◌, ◌^◌, [], ◌∷◌, ◌++◌, length, true, false};
ghost use Rattle.wake_ring.specs.Queue.{is_in};
ghost use Rattle.bound_trail.specs.History.{present};
ghost use Rattle.box_eval.specs.Box.{low_at};
ghost use Rattle.box_eval.specs.Rules.{IsFlat};
ghost use Rattle.search_laws.specs.Answers.{IsPointAnswer, IsRefutedAnswer, IsUndecidedAnswer, unknown_lines, claim_of, sum_of_two};
ghost use Rattle.search_laws.specs.linear_sums.FacingPairs.{NoneFacing};
ghost use Rattle.seeded_search.specs.Desks.{IsDesk};
ghost use Rattle.seeded_search.specs.Draws.{chosen_by};
ghost use Rattle.seeded_search.specs.Lows.{lows_of};
ghost use Rattle.seeded_search.specs.Outcomes.{IfPoint, IfRefuted, IfUndecided};

use crate::course::{End, go};
use crate::desk::Desk;
use crate::draws::Draws;
use crate::outcome::Outcome;
use crate::script::Script;
use crate::task::Task;
use crate::work::Work;
use bound_trail::Trail;
use box_eval::{Ends, Flat, Point};
use osc_base::Row;
use search_laws::{Line, Pick, Record};
use search_plans::Entry;
use wake_ring::WakeRing;

/// Searches a flat form for a point that meets all its rules, or for a record that refutes it, with at most `cuts` cuts.
///
/// The desk was made for the flat form and `cuts`, the trail is at the flat form's box with room for `cuts` sets, and the ring is
/// empty, for as many numbers as there are rules. The plan and the numbers of the seed choose the decisions. Any list is a
/// plan, and an empty one decides slots in their order. It takes no memory.
///
/// Where the flat form has a false facing pair, the answer is the refutation by the sum of its two rules, without a cut.
/// Where a slot is narrowed again and again, sums of more rules are looked for.
pub fn search(
    flat: &Flat,
    plan: &[Entry],
    desk: Desk,
    trail: &mut Trail,
    ring: &mut WakeRing,
    seed: u64,
    cuts: u32,
) -> Outcome
    requires flat { IsFlat flat.now }
    requires desk { IsDesk flat.now cuts desk }
    requires cuts { cuts ≤ 1000000 }
    requires trail { trail.old ≡ record { boxes = flat.now.bounds.pairs ∷ []; room = cuts } }
    requires ring { ring.old ≡ record { bound = length flat.now.rules; items = [] } }

    ensures point { IfPoint result (λ p. IsPointAnswer (chosen_by plan.now seed) cuts flat.now p.values trail.new.boxes ring.new.items) }
    ensures refuted { IfRefuted result (λ r. IsRefutedAnswer (chosen_by plan.now seed) cuts flat.now r trail.new.boxes) }
    ensures undecided { IfUndecided result (λ r. IsUndecidedAnswer (chosen_by plan.now seed) cuts flat.now r trail.new.boxes ring.new.items) }
{
    if !desk.sum.as_slice().is_empty() {
        return Outcome::Refuted(summed(flat, desk.script, desk.sum));
    }
    seek(flat, plan, desk, trail, ring, seed, cuts)
}

/// Searches a flat form that has no false facing pair.
fn seek(
    flat: &Flat,
    plan: &[Entry],
    desk: Desk,
    trail: &mut Trail,
    ring: &mut WakeRing,
    seed: u64,
    cuts: u32,
) -> Outcome
    requires flat { IsFlat flat.now }
    requires desk { IsDesk flat.now cuts desk }
    requires none { desk.sum ≡ [] }
    requires cuts { cuts ≤ 1000000 }
    requires trail { trail.old ≡ record { boxes = flat.now.bounds.pairs ∷ []; room = cuts } }
    requires ring { ring.old ≡ record { bound = length flat.now.rules; items = [] } }

    ensures point { IfPoint result (λ p. IsPointAnswer (chosen_by plan.now seed) cuts flat.now p.values trail.new.boxes ring.new.items) }
    ensures refuted { IfRefuted result (λ r. IsRefutedAnswer (chosen_by plan.now seed) cuts flat.now r trail.new.boxes) }
    ensures undecided { IfUndecided result (λ r. IsUndecidedAnswer (chosen_by plan.now seed) cuts flat.now r trail.new.boxes ring.new.items) }
{
    let Desk {
        lists,
        script,
        decisions,
        marks,
        sum: _,
        picks,
        sums,
        reasons,
        values,
    } = desk;
    let mut work = Work {
        script,
        decisions,
        marks,
        draws: Draws::new(seed),
        picks,
        sums,
        reasons,
        made: 0,
        deepest: 0,
    };
    fill(ring, flat.rules.as_slice().len() as u32);
    let task = Task {
        flat,
        lists: &lists,
        plan,
        seed,
        cuts,
    };
    match go(&task, &mut work, trail, ring) {
        End::Point => Outcome::Point(point_of(trail, values)),
        End::Refuted => Outcome::Refuted(record(
            flat,
            false,
            work.deepest,
            work.script,
            work.picks.finish(),
        )),
        End::Undecided => {
            let open = 1 + work.decisions.len();
            work.script.push_unknowns(open);
            Outcome::Undecided(record(flat, true, work.deepest, work.script, work.picks.finish()))
        }
    }
}

/// Puts the numbers below a bound into an empty queue, in order.
fn fill(ring: &mut WakeRing, count: u32)
    requires { count ≤ ring.old.bound }
    ensures bound { ring.new.bound ≡ ring.old.bound }
    ensures all { (k : ℕ) → k < count → is_in k ring.new.items ≡ true }
{
    for number in 0..count {
        ring.add(number);
    }
}

/// The point of low ends of the present box, in places that were made for it.
fn point_of(trail: &Trail, mut values: Vec<i64>) -> Point
    requires few { length (present trail.now) < 2 ^ 32 }
    requires long { length values.items ≡ length (present trail.now) }
    ensures { result.values ≡ lows_of (present trail.now) }
{
    for slot in 0..trail.len() {
        values[slot as usize] = trail.low(slot);
    }
    Point {
        values: Row::of(values),
    }
}

/// The record of a flat form with this room, these lines and these picks.
fn record(flat: &Flat, undecided: bool, room: u32, script: Script, picks: Row<Pick>) -> Record
    requires flat { IsFlat flat.now }
    ensures { result ≡ claim_of flat.now undecided room script.lines picks }
{
    Record {
        undecided,
        slots: flat.bounds.pairs.as_slice().len() as u32,
        rules: flat.rules.as_slice().len() as u32,
        room,
        lines: script.finish(),
        picks,
    }
}

/// The record whose one line is the sum of two rules.
fn summed(flat: &Flat, mut script: Script, sum: Row<Pick>) -> Record
    requires flat { IsFlat flat.now }
    requires none { script.lines ≡ [] }
    requires room { 0 < script.room }
    ensures { result ≡ claim_of flat.now false 0 sum_of_two sum }
{
    script.push(Line::Sum { count: 2 });
    record(flat, false, 0, script, sum)
}
