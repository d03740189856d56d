use dsl_tree::Digits;
use expr_nodes::Typed;
use expr_typing::literals::number;
use osc_base::{Boxed, Fault, FaultCode, Place};
use std::test::Fail;

const PLACE: Place = Place {
    file: 0,
    line: 4,
    column: 10,
    token: 17,
};

/// The numerator and the denominator of a constant.
fn parts(typed: &Option<Boxed<Typed>>) -> Option<(i128, i128)> {
    match typed {
        Some(typed) => match typed.get() {
            Typed::Constant { number, .. } => Some((number.num, number.den)),
            _ => None,
        },
        None => None,
    }
}

#[test]
fn numbers_are_in_lowest_terms(rt: HostRuntime) -> Result<(), Fail> {
    for (digits, places, want) in [
        (25, 1, (5, 2)),
        (0, 3, (0, 1)),
        (7, 0, (7, 1)),
        (1, 18, (1, 1_000_000_000_000_000_000)),
    ] {
        let digits = Digits {
            place: PLACE,
            digits,
            places,
        };
        let known = number(rt.alloc(), &digits)?;
        assert_eq!(rt; known.fault, None);
        assert_eq!(rt; parts(&known.typed), Some(want));
    }
    Ok(())
}

#[test]
fn numbers_of_too_many_places_are_refused(rt: HostRuntime) -> Result<(), Fail> {
    for places in [19, 255] {
        let digits = Digits {
            place: PLACE,
            digits: 1,
            places,
        };
        let known = number(rt.alloc(), &digits)?;
        let fault = Fault {
            place: PLACE,
            code: FaultCode::TooLarge,
        };
        assert_eq!(rt; known.fault, Some(fault));
        assert_eq!(rt; parts(&known.typed), None);
    }
    Ok(())
}
