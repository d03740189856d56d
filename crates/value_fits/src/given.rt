//! The faults of values, by what they are given to.

ghost use Rattle.std.specs.Prelude.{◌≡◌, ◌&&◌};
ghost use Rattle.osc_base.specs.FaultRows.{first_from};
ghost use Rattle.expr_nodes.specs.Kinds.{is_truth as of_truth};
ghost use Rattle.expr_nodes.specs.Typed.{kind as kind_in};
ghost use Rattle.expr_nodes.specs.Parts.{is_scalar as is_one_value};
ghost use Rattle.expr_nodes.specs.Fits.{argument_fit_rows, constraint_rows, duration_fit_rows, initial_fit_rows};
ghost use Rattle.expr_nodes.specs.Seen.{seen, seen_kind, seen_part, seen_size};

use crate::fits::{Target, with_fit};
use expr_nodes::{Size, Typed, ValueKind};
use name_scope::with_fault;
use osc_base::{Boxed, Fault, FaultCode, Place};
use units_si::Exponents;

/// The kind of a duration.
const SECONDS: ValueKind = ValueKind::Number(Exponents {
    kg: 0,
    m: 0,
    s: 1,
    a: 0,
    k: 0,
    mol: 0,
    cd: 0,
    rad: 0,
});

/// Faults of an argument for a field of one value. It may be a range.
pub fn with_argument(
    first: Option<Fault>,
    kind: ValueKind,
    size: Size,
    place: Place,
    typed: &Option<Boxed<Typed>>,
) -> Option<Fault>
    ensures { result ≡ first_from first (argument_fit_rows (seen_kind kind) (seen_size size) place (seen_part typed.now)) }
{
    let target = Target {
        kind,
        size,
        ranges: true,
    };
    with_fit(first, &target, place, typed)
}

/// Faults of an initial value, or of that of an element of a list.
pub fn with_initial(
    first: Option<Fault>,
    kind: ValueKind,
    size: Size,
    place: Place,
    typed: &Option<Boxed<Typed>>,
) -> Option<Fault>
    ensures { result ≡ first_from first (initial_fit_rows (seen_kind kind) (seen_size size) place (seen_part typed.now)) }
{
    let target = Target {
        kind,
        size,
        ranges: false,
    };
    with_fit(first, &target, place, typed)
}

/// Faults of a stated duration. It may be a range.
pub fn with_duration(
    first: Option<Fault>,
    place: Place,
    typed: &Option<Boxed<Typed>>,
) -> Option<Fault>
    ensures { result ≡ first_from first (duration_fit_rows place (seen_part typed.now)) }
{
    let target = Target {
        kind: SECONDS,
        size: Size::duration(),
        ranges: true,
    };
    with_fit(first, &target, place, typed)
}

fn is_truth(typed: &Typed) -> bool
    ensures { result ≡ (is_one_value (seen typed.now) && of_truth (kind_in (seen typed.now))) }
{
    typed.is_scalar() && typed.info().kind.is_truth()
}

/// A fault of a constraint that is no truth value.
pub fn with_constraint(
    first: Option<Fault>,
    place: Place,
    typed: &Option<Boxed<Typed>>,
) -> Option<Fault>
    ensures { result ≡ first_from first (constraint_rows place (seen_part typed.now)) }
{
    match typed {
        Some(typed) => with_fault(first, place, FaultCode::Clash, !is_truth(typed.get())),
        None => first,
    }
}
