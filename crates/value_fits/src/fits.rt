//! What fits, if it is given to something of a known kind.

ghost use Rattle.std.specs.Prelude.{◌≡◌, ◌&&◌, ◌||◌, Some};
ghost use Rattle.osc_base.specs.FaultRows.{first_from};
ghost use Rattle.expr_nodes.specs.Kinds.{are_alike, is_number as of_number};
ghost use Rattle.expr_nodes.specs.Typed.{kind as kind_in};
ghost use Rattle.expr_nodes.specs.Sizes.{size as size_in, joined, is_wide};
ghost use Rattle.expr_nodes.specs.Parts.{is_scalar as is_one_value};
ghost use Rattle.expr_nodes.specs.Fits.{differs, fit_rows, sizes_of};
ghost use Rattle.expr_nodes.specs.Seen.{seen, seen_kind, seen_part, seen_size};
ghost use Rattle.value_fits.specs.SpanEnds.{any_end, ends_in, range_in};

use crate::ends::ends_of;
use expr_nodes::{Size, Typed, ValueKind};
use name_scope::with_fault;
use osc_base::{Boxed, Fault, FaultCode, Place};

/// What a value is given to: its kind, its scale and reach, and whether it takes a range.
#[derive(Clone, Copy)]
pub struct Target {
    pub kind: ValueKind,
    pub size: Size,
    pub ranges: bool,
}

/// Whether an expression is a number.
fn is_number(typed: &Typed) -> bool
    ensures { result ≡ of_number (kind_in (seen typed.now)) }
{
    typed.info().kind.is_number()
}

/// Whether an expression is a range of numbers, and the kind is a number.
fn is_range_of(kind: &ValueKind, typed: &Typed) -> bool
    ensures { result ≡ range_in (seen_kind kind.now) (ends_in (seen typed.now)) }
{
    match ends_of(typed) {
        Some(ends) => kind.is_number() && (is_number(ends.low) && is_number(ends.high)),
        None => false,
    }
}

/// Whether an expression is one value that can be compared with the kind.
fn is_alike(kind: &ValueKind, typed: &Typed) -> bool
    ensures { result ≡ (is_one_value (seen typed.now) && are_alike (seen_kind kind.now) (kind_in (seen typed.now))) }
{
    typed.is_scalar() && kind.is_alike(&typed.info().kind)
}

/// Whether an expression is of the kind, as one value or, if ranges are taken, a range of numbers.
pub(crate) fn is_kind(target: &Target, typed: &Typed) -> bool
    ensures { result ≡ (is_one_value (seen typed.now) && are_alike (seen_kind target.now.kind) (kind_in (seen typed.now)) || (target.now.ranges && range_in (seen_kind target.now.kind) (ends_in (seen typed.now)))) }
{
    is_alike(&target.kind, typed) || (target.ranges && is_range_of(&target.kind, typed))
}

/// Whether both are numbers, and their units differ in more than a factor.
fn is_apart(kind: &ValueKind, typed: &Typed) -> bool
    ensures { result ≡ differs (seen_kind kind.now) (seen typed.now) }
{
    kind.is_number() && (is_number(typed) && !kind.has_units_of(&typed.info().kind))
}

/// Whether the value or an end of the range has another unit.
pub(crate) fn has_end_apart(kind: &ValueKind, typed: &Typed) -> bool
    ensures { result ≡ any_end (differs (seen_kind kind.now)) (seen typed.now) (ends_in (seen typed.now)) }
{
    match ends_of(typed) {
        Some(ends) => is_apart(kind, ends.low) || is_apart(kind, ends.high),
        None => is_apart(kind, typed),
    }
}

/// Whether a value is too wide beside one of the size.
pub(crate) fn is_wide_beside(size: &Size, typed: &Typed) -> bool
    ensures { result ≡ is_wide (joined (seen_size size.now) (size_in (seen typed.now))) }
{
    size.joined(&typed.info().size).is_none()
}

/// Whether the value or an end of the range is too wide beside one of the size.
fn has_wide_end(size: &Size, typed: &Typed) -> bool
    ensures { result ≡ any_end (λ t. is_wide (joined (seen_size size.now) (size_in t))) (seen typed.now) (ends_in (seen typed.now)) }
{
    match ends_of(typed) {
        Some(ends) => is_wide_beside(size, ends.low) || is_wide_beside(size, ends.high),
        None => is_wide_beside(size, typed),
    }
}

/// Faults of a value that is known.
fn with_known(first: Option<Fault>, target: &Target, place: Place, typed: &Typed) -> Option<Fault>
    ensures { result ≡ first_from first (fit_rows target.now.ranges (seen_kind target.now.kind) (seen_size target.now.size) sizes_of place (Some (seen typed.now))) }
{
    let clash = with_fault(first, place, FaultCode::Clash, !is_kind(target, typed));
    let is_apart = has_end_apart(&target.kind, typed);
    let apart = with_fault(clash, place, FaultCode::UnitClash, is_apart);
    let is_wide = has_wide_end(&target.size, typed);
    with_fault(apart, place, FaultCode::Wide, is_wide)
}

/// Faults of a value that is given to something. A value with a fault of its own has no other.
pub(crate) fn with_fit(
    first: Option<Fault>,
    target: &Target,
    place: Place,
    typed: &Option<Boxed<Typed>>,
) -> Option<Fault>
    ensures { result ≡ first_from first (fit_rows target.now.ranges (seen_kind target.now.kind) (seen_size target.now.size) sizes_of place (seen_part typed.now)) }
{
    match typed {
        Some(typed) => with_known(first, target, place, typed.get()),
        None => first,
    }
}
