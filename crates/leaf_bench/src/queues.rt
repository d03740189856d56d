//! A `NumberQueue` of 64 numbers: in each round two pushes, one removal and one number taken.
ghost use Rattle.std.specs.Prelude.{◌≡◌, ◌<◌, ◌≤◌, [], IfOk};
ghost use Rattle.wake_ring.specs.Queue.{queue};
ghost use Rattle.leaf_bench.specs.Turns.{turned, answer, queue_after, sum_after};

use std::alloc::{AllocError, Global};
use wake_ring::NumberQueue;

/// The sum of the results of `rounds` rounds.
pub(crate) fn answers(alloc: Global, rounds: u32) -> Result<u64, AllocError>
    ensures { IfOk result (λ n. n ≡ sum_after rounds) }
{
    let mut ring = NumberQueue::new(alloc, 64)?;
    Ok(turn_all(&mut ring, rounds))
}

/// Makes so many rounds from the empty queue, and adds up their results.
fn turn_all(ring: &mut NumberQueue, rounds: u32) -> u64
    requires { ring.old ≡ queue 64 [] }
    ensures sum { result ≡ sum_after rounds }
    ensures queue { ring.new ≡ queue 64 (queue_after rounds) }
{
    let mut sum = 0;
    for round in 0..rounds {
        sum += u64::from(turn(ring, round % 64));
    }
    sum
}

/// Pushes two numbers, removes one and takes one. It adds up the number that it takes, and 1 for each of the first three
/// calls that returns true.
fn turn(ring: &mut NumberQueue, number: u32) -> u32
    requires bound { ring.old.bound ≡ 64 }
    requires number { number < 64 }
    ensures few { result ≤ 66 }
    ensures answer { result ≡ answer number ring.old.items }
    ensures queue { ring.new ≡ queue 64 (turned number ring.old.items) }
{
    let first = ring.push_back(number);
    let second = ring.push_back((number * 5 + 17) % 64);
    let removed = ring.remove((number * 3) % 64);
    let taken = ring.pop_front().unwrap_or(0);
    u32::from(first) + u32::from(second) + u32::from(removed) + taken
}
