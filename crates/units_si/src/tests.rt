use crate::{Exponents, Unit, literal};
use osc_base::Fraction;
use std::cmp::Ordering;
use std::test::Fail;

const NONE: Exponents = Exponents {
    kg: 0,
    m: 0,
    s: 0,
    a: 0,
    k: 0,
    mol: 0,
    cd: 0,
    rad: 0,
};

fn fraction((num, den): (i128, i128)) -> Result<Fraction, &'static str> {
    if den >= 1 {
        Ok(Fraction { num, den })
    } else {
        Err("the denominator is below 1")
    }
}

fn parts(fraction: Option<Fraction>) -> Option<(i128, i128)> {
    fraction.map(|f| (f.num, f.den))
}

#[test]
fn literals_have_slot_values(rt: HostRuntime) -> Result<(), Fail> {
    for (number, factor, offset, want) in [
        ((30, 1), (277777778, 1000000000), (0, 1), Some(8333)),
        ((5, 10000), (1, 1), (0, 1), Some(1)),
        ((0, 1), (1, 1), (-5, 10000), Some(0)),
        ((1000001, 1), (1, 1), (0, 1), None),
        ((-1000000, 1), (1, 1), (0, 1), Some(-1000000000)),
    ] {
        let unit = Unit {
            exponents: NONE,
            factor: fraction(factor)?,
            offset: fraction(offset)?,
        };
        assert_eq!(rt;
            literal(&fraction(number)?, &unit),
            want,
            "{number:?} times {factor:?} plus {offset:?}"
        );
    }
    Ok(())
}

#[test]
fn fractions_are_exact(rt: HostRuntime) -> Result<(), Fail> {
    for (digits, places, want) in [
        (
            999999999999999999,
            18,
            Some((999999999999999999, 1000000000000000000)),
        ),
        (1000000000000000000, 0, None),
        (1, 19, None),
        (0, 18, Some((0, 1))),
        (150, 2, Some((3, 2))),
    ] {
        assert_eq!(rt;
            parts(Fraction::decimal(digits, places)),
            want,
            "{digits} over 10^{places}"
        );
    }
    for (number, want) in [((1, 2000), 1), ((-1, 2000), 0), ((1, 3), 333)] {
        assert_eq!(rt;
            fraction(number)?.nearest_thousandth(),
            Some(want),
            "{number:?}"
        );
    }
    let (a, b) = (fraction((1, 6))?, fraction((-3, 4))?);
    assert_eq!(rt; parts(a.add(&b)), Some((-7, 12)));
    assert_eq!(rt; parts(a.times(&b)), Some((-3, 24)));
    assert_eq!(rt; a.compare(&b), Some(Ordering::Greater));
    assert_eq!(rt; a.compare(&fraction((2, 12))?), Some(Ordering::Equal));
    // 2^119 / 3 and 1 / 2 have 6 as their common denominator, and the first numerator becomes 2^120
    let large = fraction((664613997892457936451903530140172288, 3))?;
    assert_eq!(rt;
        parts(large.add(&fraction((0, 2))?)),
        Some((1329227995784915872903807060280344576, 6))
    );
    assert_eq!(rt; parts(large.add(&fraction((1, 2))?)), None);
    Ok(())
}

#[test]
fn exponents_are_added(rt: HostRuntime) {
    let metres = |m| Exponents { m, ..NONE };
    assert_eq!(rt; metres(60).plus(&metres(41)), None);
    assert_eq!(rt; metres(60).plus(&metres(40)), Some(metres(100)));
    assert_eq!(rt; metres(-60).minus(&metres(40)), Some(metres(-100)));
    assert_eq!(rt; metres(-60).minus(&metres(41)), None);
}
