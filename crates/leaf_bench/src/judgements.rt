//! `judge` on a rule of fifty nodes and two boxes in turn, at which each node is looked at.
ghost use Rattle.std.specs.Prelude.{◌≡◌, ◌+◌, ◌*◌, ◌<◌, pos, IfOk};
ghost use Rattle.box_eval.specs.Rules.{CanJudge};
ghost use Rattle.box_eval.specs.Verdict.{verdict_of};
ghost use Rattle.leaf_bench.specs.Small.{box_to, near, fifty, number_open};

use box_eval::{Bounds, Pair, Rule, Term, Verdict, judge};
use osc_base::{Boxed, Row};
use std::alloc::{AllocError, Global};

/// The number of slots of a box.
const SLOTS: u32 = 9;

/// How many of the verdicts of `rounds` rounds are open, of which each round has two.
///
/// On the narrow box the rule is false, and on the wide one it is open. So there is one in each round.
pub(crate) fn open_verdicts(alloc: Global, rounds: u32) -> Result<u64, AllocError>
    ensures { IfOk result (λ n. n ≡ rounds) }
{
    let rule = make_rule(alloc)?;
    judge_boxes(alloc, &rule, rounds)
}

/// Makes a narrow and a wide box, and judges the rule on both in each round.
fn judge_boxes(alloc: Global, rule: &Rule, rounds: u32) -> Result<u64, AllocError>
    requires { rule.now ≡ fifty }
    ensures { IfOk result (λ n. n
        ≡ rounds * (number_open (verdict_of (box_to (pos 3)) fifty) + number_open (verdict_of (box_to (pos 20)) fifty))) }
{
    let narrow = make_box(alloc, 3)?;
    let wide = make_box(alloc, 20)?;
    Ok(judge_all(rule, &narrow, &wide, rounds))
}

/// Judges a rule on two boxes in each round, and counts the open verdicts.
fn judge_all(rule: &Rule, narrow: &Bounds, wide: &Bounds, rounds: u32) -> u64
    requires narrow { CanJudge narrow.now.pairs rule.now }
    requires wide { CanJudge wide.now.pairs rule.now }
    ensures { result ≡ rounds * (number_open (verdict_of narrow.now.pairs rule.now) + number_open (verdict_of wide.now.pairs rule.now)) }
{
    let mut count = 0;
    for _ in 0..rounds {
        count += judge_once(rule, narrow);
        count += judge_once(rule, wide);
    }
    count
}

/// 1 if the verdict is open, and else 0.
fn judge_once(rule: &Rule, bounds: &Bounds) -> u64
    requires { CanJudge bounds.now.pairs rule.now }
    ensures { result ≡ number_open (verdict_of bounds.now.pairs rule.now) }
{
    match judge(rule, bounds) {
        Verdict::Open => 1,
        Verdict::True | Verdict::False => 0,
    }
}

/// A box whose slots are each from 0 to `high`.
fn make_box(alloc: Global, high: i64) -> Result<Bounds, AllocError>
    ensures { IfOk result (λ b. b.pairs ≡ box_to high) }
{
    let pairs = vec![in alloc; Pair { low: 0, high }; SLOTS as usize]?;
    Ok(Bounds {
        pairs: Row::of(pairs),
    })
}

/// The negation of this: each of the first eight slots is at most nine more than the next. It has fifty nodes.
fn make_rule(alloc: Global) -> Result<Rule, AllocError>
    ensures { IfOk result (λ rule. rule ≡ fifty) }
{
    let mut rule = Rule::Always;
    for slot in 0..SLOTS - 1 {
        let near = make_near(alloc, slot)?;
        rule = both(alloc, near, rule)?;
    }
    Ok(Rule::Not(Boxed::new(alloc, rule)?))
}

/// Both are true.
fn both(alloc: Global, first: Rule, second: Rule) -> Result<Rule, AllocError>
    ensures { IfOk result (λ r. r ≡ Rule.Both first second) }
{
    let first = Boxed::new(alloc, first)?;
    let second = Boxed::new(alloc, second)?;
    Ok(Rule::Both(first, second))
}

/// The slot is at most nine more than the next.
fn make_near(alloc: Global, slot: u32) -> Result<Rule, AllocError>
    requires { slot < 8 }
    ensures { IfOk result (λ r. r ≡ near slot) }
{
    let next = Boxed::new(alloc, Term::Slot(slot + 1))?;
    let nine = Boxed::new(alloc, Term::Whole(9))?;
    Ok(Rule::AtMost(Term::Slot(slot), Term::Sum(next, nine)))
}
