//! Searches of the flat forms.
ghost use Rattle.std.specs.Prelude.{◌≤◌};
ghost use Rattle.box_eval.specs.Rules.{IsFlat};

use crate::sums::{mixed, of_outcome};
use crate::{forms, vehicles};
use anyhow::{Result, bail};
use bound_trail::Trail;
use box_eval::Flat;
use search_tests::is_flat;
use seeded_search::{Desk, search};
use std::alloc::{AllocError, Global};
use wake_ring::WakeRing;

/// A number that depends on the answer of a search without a plan and with this seed, over memory that is made for it.
fn answer(alloc: Global, flat: &Flat, seed: u64, cuts: u32) -> Result<u64, AllocError>
    requires flat { IsFlat flat.now }
    requires cuts { cuts ≤ 1000000 }
{
    let desk = Desk::new(alloc, flat, cuts)?;
    let mut trail = Trail::new(alloc, &flat.bounds, cuts)?;
    let mut ring = WakeRing::new(alloc, flat.rules.as_slice().len() as u32)?;
    let outcome = search(flat, &[], desk, &mut trail, &mut ring, seed, cuts);
    Ok(of_outcome(&outcome))
}

/// One search for each of so many seeds, from 0 on.
fn answers(alloc: Global, flat: &Flat, seeds: u32, cuts: u32) -> Result<u64>
    requires cuts { cuts ≤ 1000000 }
{
    if !is_flat(flat) {
        bail!("the form is no flat form");
    }
    let mut total = 0;
    for seed in 0..seeds {
        total = mixed(total, answer(alloc, flat, u64::from(seed), cuts)?);
    }
    Ok(total)
}

/// So many searches for a root of 2.
pub(crate) fn roots(alloc: Global, seeds: u32) -> Result<u64> {
    answers(alloc, &forms::root(alloc)?, seeds, 10)
}

/// One search for three numbers, each of which is one less than the next in a circle, with so many cuts.
pub(crate) fn circle(alloc: Global, cuts: u32) -> Result<u64> {
    if cuts > 1_000_000 {
        bail!("there are at most 1,000,000 cuts");
    }
    answers(alloc, &forms::circle(alloc)?, 1, cuts)
}

/// So many searches for the way of two vehicles, with 20,000 cuts each.
pub(crate) fn vehicles(alloc: Global, seeds: u32) -> Result<u64> {
    answers(alloc, &vehicles::two_vehicles(alloc)?, seeds, 20_000)
}

/// Makes a flat form of so many rules, and the memory to search it with so many cuts, if that isn't 0. It returns the number
/// of rules.
pub(crate) fn many_rules(alloc: Global, rules: u32, cuts: u32) -> Result<u64>
    requires cuts { cuts ≤ 1000000 }
{
    let flat = forms::many_rules(alloc, rules)?;
    if !is_flat(&flat) {
        bail!("the form is no flat form");
    }
    if cuts > 0 {
        let _desk = Desk::new(alloc, &flat, cuts)?;
        let _trail = Trail::new(alloc, &flat.bounds, cuts)?;
        let _ring = WakeRing::new(alloc, flat.rules.as_slice().len() as u32)?;
    }
    Ok(flat.rules.as_slice().len() as u64)
}
