ghost use Rattle.std.specs.Prelude.{◌≡◌, ◌<◌, ◌≤◌, ◌^◌, length};
ghost use Rattle.box_eval.specs.Box.{box_of, value_of};
ghost use Rattle.box_eval.specs.Truth.{true_at, value_at};
ghost use Rattle.box_eval.specs.Reach.{slot_bound, term_slot_bound, reach_of, term_reach};

use crate::whole::{relates, worked_out};
use crate::{Rule, Term};
use osc_base::Row;

/// A value for each slot.
#[derive(Debug, PartialEq, Eq, Drop)]
pub struct Point {
    pub values: Row<i64>,
}

/// Whether a rule is true at a point.
///
/// Each slot of the rule is below the number of values of the point, and each term within the rule,
/// those inside other terms and inside [`Term::Truth`] too, has a magnitude of at most 2^120 there.
/// It takes no memory.
#[cycle(values)]
pub fn truth(rule: &Rule, point: &[i64]) -> bool
    requires slots { slot_bound rule.now ≤ length point.now }
    requires reach { reach_of (box_of point.now) rule.now ≤ 2 ^ 120 }
    ensures { result ≡ true_at point.now rule.now }
{
    match rule {
        Rule::Always => true,
        Rule::Below(a, b) | Rule::AtMost(a, b) | Rule::Equal(a, b) | Rule::Differ(a, b) => {
            relates(rule, value(a, point), value(b, point))
        }
        Rule::Both(a, b) => truth(a.get(), point) && truth(b.get(), point),
        Rule::Either(a, b) => truth(a.get(), point) || truth(b.get(), point),
        Rule::Not(a) => !truth(a.get(), point),
    }
}

/// The value of a term at a point.
#[cycle(values)]
fn value(term: &Term, point: &[i64]) -> i128
    requires slots { term_slot_bound term.now ≤ length point.now }
    requires reach { term_reach (box_of point.now) term.now ≤ 2 ^ 120 }
    ensures { result ≡ value_at point.now term.now }
{
    match term {
        Term::Whole(number) => *number,
        Term::Slot(slot) => i128::from(value_in(point, *slot)),
        Term::Sum(a, b) | Term::Less(a, b) | Term::Times(a, b) => {
            worked_out(term, value(a.get(), point), value(b.get(), point))
        }
        Term::Truth(rule) => i128::from(truth(rule.get(), point)),
    }
}

fn value_in(point: &[i64], slot: u32) -> i64
    requires { slot < length point.now }
    ensures { result ≡ value_of point.now slot }
{
    point[slot as usize]
}
