//! A `Trail` of 32 slots: in each round one set for each slot, and the way back.
ghost use Rattle.std.specs.Prelude.{◌≡◌, ◌*◌, ◌<◌, length, IfOk};
ghost use Rattle.bound_trail.specs.History.{present};
ghost use Rattle.leaf_bench.specs.Rounds.{lowered, IsReady};

use bound_trail::Trail;
use box_eval::{Bounds, Ends, Pair};
use osc_base::Row;
use std::alloc::{AllocError, Global};

/// The number of slots of the box, and of sets that the trail has places for.
const SLOTS: u32 = 32;

/// How many sets `rounds` rounds make, each of which makes one for each slot.
pub(crate) fn sets(alloc: Global, rounds: u32) -> Result<u64, AllocError>
    ensures { IfOk result (λ n. n ≡ rounds * 32) }
{
    let pairs = vec![in alloc; Pair { low: 0, high: 9 }; SLOTS as usize]?;
    let bounds = Bounds {
        pairs: Row::of(pairs),
    };
    let mut trail = Trail::new(alloc, &bounds, SLOTS)?;
    Ok(set_all(&mut trail, rounds))
}

/// Makes so many rounds, and counts their sets.
fn set_all(trail: &mut Trail, rounds: u32) -> u64
    requires { IsReady trail.old }
    ensures sets { result ≡ rounds * 32 }
    ensures back { trail.new ≡ trail.old }
{
    let mut sets = 0;
    for _ in 0..rounds {
        sets += u64::from(set_and_undo(trail));
    }
    sets
}

/// Lowers the high end of each slot, takes all of that back, and counts the sets.
fn set_and_undo(trail: &mut Trail) -> u32
    requires { IsReady trail.old }
    ensures sets { result ≡ 32 }
    ensures back { trail.new ≡ trail.old }
{
    for slot in 0..SLOTS {
        lower(trail, slot);
    }
    let sets = trail.mark();
    trail.undo_to(0);
    sets
}

/// Lowers the high end of a slot by one, if it is above the low end and there is room for a set.
fn lower(trail: &mut Trail, slot: u32)
    requires { slot < length (present trail.old) }
    ensures { trail.new ≡ lowered trail.old slot }
{
    let high = trail.high(slot);
    if trail.room() > 0 && trail.low(slot) < high {
        trail.set_high(slot, high - 1);
    }
}
