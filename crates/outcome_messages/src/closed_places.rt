//! The places of the rules that a record is closed by, from the listing of `flat`.

use message_parts::ClosedRules;
use run_messages::{RulePlace, place_in};
use std::alloc::{AllocError, Global};

/// How many places are gathered.
const MOST: usize = 64;

/// The places of the rules of a listing that are closed by, each once, in the order of the rules.
pub fn closed_places<'a>(
    alloc: Global,
    listing: &'a str,
    closed: &ClosedRules,
) -> Result<Vec<RulePlace<'a>>, AllocError> {
    let mut places = Vec::new(alloc);
    let mut next: Option<usize> = None;
    for line in listing.lines() {
        match next {
            None if line.starts_with("rules ") => next = Some(0),
            None => {}
            Some(rule) => {
                if closed.has(rule) {
                    put_place(&mut places, line)?;
                }
                next = Some(rule.saturating_add(1));
            }
        }
    }
    Ok(places)
}

fn put_place<'a>(places: &mut Vec<RulePlace<'a>>, line: &'a str) -> Result<(), AllocError> {
    if let Some(place) = place_of_rule(line) {
        if places.len() < MOST && !places.as_slice().contains(&place) {
            places.push(place)?;
        }
    }
    Ok(())
}

/// The place of a rule. `None` if it is one of a path.
fn place_of_rule(line: &str) -> Option<RulePlace<'_>> {
    let (word, rest) = line.split_once(' ')?;
    match word {
        "hard" | "default" => place_in(rest),
        "modifier" => place_in(rest.rsplit_once(' ')?.0),
        _ => None,
    }
}
