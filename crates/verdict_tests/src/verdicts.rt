//! A flat form with one slot: from 0 to 5, above 3, and below 3. The slots of a rule over several.
ghost use Rattle.std.specs.Prelude.{IfOk, [], ◌∷◌, negsuc, pos, ◌≤ℤ◌};
ghost use Rattle.box_eval.specs.Box.{pair};
ghost use Rattle.box_eval.specs.Rules.{CanJudge};

use box_eval::{Bounds, Flat, Pair, Rule, Term, Verdict, judge, slots_of, truth};
use osc_base::{Boxed, Row};
use seeded_search::{Line, Record, refuted};
use std::alloc::{AllocError, Global};

fn within(alloc: Global) -> Result<Rule, AllocError>
    ensures { IfOk result (λ rule. CanJudge (pair (negsuc 999999999) (pos 1000000000) ∷ []) rule) }
{
    let low = Rule::AtMost(Term::Whole(0), Term::Slot(0));
    let high = Rule::AtMost(Term::Slot(0), Term::Whole(5));
    Ok(Rule::Both(Boxed::new(alloc, low)?, Boxed::new(alloc, high)?))
}

fn above() -> Rule
    ensures { CanJudge (pair (negsuc 999999999) (pos 1000000000) ∷ []) result }
{
    Rule::Below(Term::Whole(3), Term::Slot(0))
}

fn below() -> Rule
    ensures { CanJudge (pair (negsuc 999999999) (pos 1000000000) ∷ []) result }
{
    Rule::Below(Term::Slot(0), Term::Whole(3))
}

fn flat(alloc: Global) -> Result<Flat, AllocError> {
    let mut pairs = Row::new(alloc);
    pairs.push(Pair {
        low: -1_000_000_000,
        high: 1_000_000_000,
    })?;
    let mut rules = Row::new(alloc);
    rules.push(within(alloc)?)?;
    rules.push(above())?;
    rules.push(below())?;
    let bounds = Bounds { pairs };
    Ok(Flat { bounds, rules })
}

fn record(alloc: Global) -> Result<Record, AllocError> {
    let mut lines = Row::new(alloc);
    lines.push(Line::Low { slot: 0, value: -1 })?;
    lines.push(Line::Close { rule: 0 })?;
    lines.push(Line::High { slot: 0, value: 5 })?;
    lines.push(Line::Close { rule: 0 })?;
    lines.push(Line::Low { slot: 0, value: 3 })?;
    lines.push(Line::Close { rule: 1 })?;
    lines.push(Line::Close { rule: 2 })?;
    Ok(Record {
        undecided: false,
        slots: 1,
        rules: 3,
        room: 3,
        lines,
        picks: Row::new(alloc),
    })
}

fn says(alloc: Global, rule: &Rule, low: i64, high: i64) -> Result<Verdict, AllocError>
    requires rule { CanJudge (pair (negsuc 999999999) (pos 1000000000) ∷ []) rule.now }
    requires ordered { low ≤ℤ high }
    requires low { negsuc 999999999 ≤ℤ low }
    requires high { high ≤ℤ pos 1000000000 }
{
    let mut pairs = Row::new(alloc);
    pairs.push(Pair { low, high })?;
    Ok(judge(rule, &Bounds { pairs }))
}

fn holds(rule: &Rule, x: i64) -> bool
    requires rule { CanJudge (pair (negsuc 999999999) (pos 1000000000) ∷ []) rule.now }
    requires low { negsuc 999999999 ≤ℤ x }
    requires high { x ≤ℤ pos 1000000000 }
{
    truth(rule, &[x])
}

#[test]
fn verdicts_and_truths(rt: HostRuntime) {
    let within = within(rt.alloc()).expect(&rt, "memory");
    for (low, high, want) in [
        (-1_000_000_000, 1_000_000_000, Verdict::Open),
        (-1_000_000_000, -1, Verdict::False),
        (6, 1_000_000_000, Verdict::False),
        (0, 5, Verdict::True),
        (5, 5, Verdict::True),
    ] {
        assert!(rt; -1_000_000_000 <= low && low <= high && high <= 1_000_000_000);
        assert_eq!(rt;
            says(rt.alloc(), &within, low, high).expect(&rt, "memory"),
            want,
            "at {low}"
        );
    }
    assert_eq!(rt;
        says(rt.alloc(), &above(), 0, 3).expect(&rt, "memory"),
        Verdict::False
    );
    assert_eq!(rt;
        says(rt.alloc(), &above(), 3, 4).expect(&rt, "memory"),
        Verdict::Open
    );
    assert_eq!(rt;
        says(rt.alloc(), &below(), 4, 5).expect(&rt, "memory"),
        Verdict::False
    );
    for (x, want) in [
        (-1, (false, false, true)),
        (3, (true, false, false)),
        (4, (true, true, false)),
        (6, (false, true, false)),
    ] {
        let got = (holds(&within, x), holds(&above(), x), holds(&below(), x));
        assert!(rt; got == want, "at {x}");
    }
}

#[test]
fn copies(rt: HostRuntime) {
    let flat = flat(rt.alloc()).expect(&rt, "memory");
    let copy = flat.copy(rt.alloc()).expect(&rt, "memory");
    assert!(rt; copy.bounds == flat.bounds);
    assert!(rt; is_row(copy.rules.as_slice()));
    let record = record(rt.alloc()).expect(&rt, "memory");
    refuted(&copy, &record);
}

fn is_row(rules: &[Rule]) -> bool {
    match rules {
        [Rule::Both(low, high), above, below] => {
            matches!(low.get(), Rule::AtMost(Term::Whole(0), Term::Slot(0)))
                && matches!(high.get(), Rule::AtMost(Term::Slot(0), Term::Whole(5)))
                && matches!(above, Rule::Below(Term::Whole(3), Term::Slot(0)))
                && matches!(below, Rule::Below(Term::Slot(0), Term::Whole(3)))
        }
        _ => false,
    }
}

fn product(alloc: Global, a: u32, b: u32) -> Result<Term, AllocError> {
    let a = Boxed::new(alloc, Term::Slot(a))?;
    let b = Boxed::new(alloc, Term::Slot(b))?;
    Ok(Term::Times(a, b))
}

fn falsehood(alloc: Global, rule: Rule) -> Result<Term, AllocError> {
    let rule = Boxed::new(alloc, rule)?;
    Ok(Term::Truth(Boxed::new(alloc, Rule::Not(rule))?))
}

/// Slot 7 times slot 2 is 1 if slot 7 is at least slot 0, and else 0.
fn over_three(alloc: Global) -> Result<Rule, AllocError> {
    let product = product(alloc, 7, 2)?;
    let at_least = falsehood(alloc, Rule::Below(Term::Slot(7), Term::Slot(0)))?;
    Ok(Rule::Equal(product, at_least))
}

#[test]
fn slots(rt: HostRuntime) {
    let several = over_three(rt.alloc()).expect(&rt, "memory");
    let read = slots_of(rt.alloc(), &several).expect(&rt, "memory");
    assert_eq!(rt; read.as_slice(), [0, 2, 7].as_slice());
    let within = within(rt.alloc()).expect(&rt, "memory");
    let one = slots_of(rt.alloc(), &within).expect(&rt, "memory");
    assert_eq!(rt; one.as_slice(), [0].as_slice());
    let none = slots_of(rt.alloc(), &Rule::Always).expect(&rt, "memory");
    assert!(rt; none.as_slice().is_empty());
}
