//! A program that calls `judge`, a `Trail` or a `NumberQueue` many times, for `bench/leaves` to time:
//! `leaf_bench PART ROUNDS` makes so many rounds of calls and prints what they add up to.
#![tactic(auto)]

mod judgements;
mod queues;
mod trails;

use anyhow::{Context, Result, bail};
use std::env;

fn main(rt: HostRuntime) -> Result<()> {
    let mut words = env::args(&rt)?.skip(1);
    let (Some(part), Some(rounds), None) = (words.next(), words.next(), words.next()) else {
        bail!("the words are a part, which is judge, trail or ring, and a number of rounds");
    };
    let rounds = rounds
        .as_str()
        .parse::<u32>()
        .context("the number of rounds")?;
    let total = match part.as_str() {
        "judge" => judgements::open_verdicts(rt.alloc(), rounds)?,
        "trail" => trails::sets(rt.alloc(), rounds)?,
        "ring" => queues::answers(rt.alloc(), rounds)?,
        _ => bail!("the part is judge, trail or ring"),
    };
    println!(rt; "{total}")?;
    Ok(())
}
