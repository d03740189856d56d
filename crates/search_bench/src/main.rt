//! A program that searches flat forms and verifies records, for `bench/search` to time. `search_bench PART NUMBER` prints a
//! number that depends on all of the answers, and `search_bench verify NUMBER FILE` what the record of a file is.
#![tactic(auto)]

mod forms;
mod records;
mod searches;
mod sums;
mod vehicles;

use anyhow::{Context, Result, bail};
use std::env;

fn main(rt: HostRuntime) -> Result<()> {
    let mut words = env::args(&rt)?.skip(1);
    let (Some(part), Some(number)) = (words.next(), words.next()) else {
        bail!("the words are a part and a number");
    };
    let number = number.as_str().parse::<u32>().context("the number")?;
    match words.next() {
        Some(file) => println!(rt; "{:?}", records::verified(&rt, number, file.as_str())?)?,
        None => println!(rt; "{}", total(&rt, part.as_str(), number)?)?,
    }
    Ok(())
}

/// A number that depends on all answers of a part.
fn total(rt: &impl AllocGlobal, part: &str, number: u32) -> Result<u64> {
    let alloc = rt.alloc();
    match part {
        "root" => searches::roots(alloc, number),
        "below" => searches::circle(alloc, number),
        "field" => searches::vehicles(alloc, number),
        "form" => searches::many_rules(alloc, number, 0),
        "desk" => searches::many_rules(alloc, number, 1_000_000),
        _ => bail!("the part is root, below, field, form, desk, or verify with a file"),
    }
}
