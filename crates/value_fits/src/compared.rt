//! Values and ranges with which a modifier compares.

ghost use Rattle.std.specs.Prelude.{◌≡◌, ◌<◌, ◌^◌, ◌||◌, Some, None, cond, nat_lt, option_map, true};
ghost use Rattle.std.specs.List.{list_any};
ghost use Rattle.osc_base.specs.FaultRows.{first_from};
ghost use Rattle.osc_base.specs.LowestTerms.{lcm as multiple};
ghost use Rattle.expr_nodes.specs.Fits as Fits;
ghost use Rattle.expr_nodes.specs.Fits.{end_sizes, fit_rows, modifier_fit_rows};
ghost use Rattle.expr_nodes.specs.Seen.{fitting, seen, seen_kind, seen_part, seen_size};
ghost use Rattle.expr_nodes.specs.Sizes.{is_wide, joined, widened};

use crate::ends::ends_of;
use crate::fits::{Target, has_end_apart, is_kind, is_wide_beside};
use expr_nodes::{Size, Typed, ValueKind};
use name_scope::with_fault;
use osc_base::{Boxed, Fault, FaultCode, Place, gcd};

/// The greatest scale and reach, 2^120.
const MOST: u128 = 0x100_0000_0000_0000_0000_0000_0000_0000;

/// The size of the samples with which a modifier compares.
fn sample_size() -> Size
    ensures { seen_size result ≡ Fits.sample_size }
{
    Size {
        scale: 1_000_000,
        reach: 2_000_000_000_000,
    }
}

/// The least common multiple. `None` when it doesn't fit.
#[tactic(auto, using(osc_base::proofs::Divisors::gcd_above, osc_base::proofs::Divisors::lcm_is))]
fn least_common_multiple(a: u128, b: u128) -> Option<u128>
    requires first { 0 < a }
    requires second { 0 < b }
    ensures { result ≡ cond (nat_lt (multiple a b) (2 ^ 128)) (Some (multiple a b)) None }
{
    a.checked_mul(b / gcd(a, b))
}

/// This size, if it is at most 2^120.
fn within(scale: u128, reach: u128) -> Option<Size>
    requires { 0 < scale }
    ensures { option_map seen_size result ≡ fitting (record { scale = scale; reach = reach }) }
{
    if scale <= MOST && reach <= MOST {
        Some(Size { scale, reach })
    } else {
        None
    }
}

/// A size at a scale that its own divides. `None` when it passes 2^120.
fn at_scale(size: &Size, common: u128) -> Option<Size>
    requires { 0 < common }
    ensures { option_map seen_size result ≡ fitting (widened common (seen_size size.now)) }
{
    let reach = size.reach.checked_mul(common / size.scale)?;
    within(common, reach)
}

/// Whether an end of a range is too wide beside one of the size, at a scale that its own divides.
fn is_wide_at(size: &Size, end: &Size, common: u128) -> bool
    requires { 0 < common }
    ensures { result ≡ is_wide (joined (seen_size size.now) (widened common (seen_size end.now))) }
{
    match at_scale(end, common) {
        Some(end) => size.joined(&end).is_none(),
        None => true,
    }
}

/// Whether an end of a range is too wide beside one of the size, at the scale of both ends.
fn are_wide_together(size: &Size, low: &Size, high: &Size) -> bool
    ensures { result ≡ (is_wide (joined (seen_size size.now) (widened (multiple low.now.scale high.now.scale) (seen_size low.now))) || is_wide (joined (seen_size size.now) (widened (multiple low.now.scale high.now.scale) (seen_size high.now)))) }
{
    match least_common_multiple(low.scale, high.scale) {
        Some(common) => is_wide_at(size, low, common) || is_wide_at(size, high, common),
        None => true,
    }
}

/// Whether the value or an end of the range, at the scale of both ends, is too wide beside one of the size.
fn has_wide_end(size: &Size, typed: &Typed) -> bool
    ensures { result ≡ list_any (λ z. is_wide (joined (seen_size size.now) z)) (end_sizes (seen typed.now)) }
{
    match ends_of(typed) {
        Some(ends) => are_wide_together(size, &ends.low.info().size, &ends.high.info().size),
        None => is_wide_beside(size, typed),
    }
}

/// Faults of a value or range that is known.
fn with_known(first: Option<Fault>, target: &Target, place: Place, typed: &Typed) -> Option<Fault>
    ensures { result ≡ first_from first (fit_rows target.now.ranges (seen_kind target.now.kind) (seen_size target.now.size) end_sizes place (Some (seen typed.now))) }
{
    let clash = with_fault(first, place, FaultCode::Clash, !is_kind(target, typed));
    let is_apart = has_end_apart(&target.kind, typed);
    let apart = with_fault(clash, place, FaultCode::UnitClash, is_apart);
    let is_wide = has_wide_end(&target.size, typed);
    with_fault(apart, place, FaultCode::Wide, is_wide)
}

/// Faults of a value or range with which a modifier compares.
pub fn with_compared(
    first: Option<Fault>,
    kind: ValueKind,
    place: Place,
    typed: &Option<Boxed<Typed>>,
) -> Option<Fault>
    ensures { result ≡ first_from first (modifier_fit_rows (seen_kind kind) place (seen_part typed.now)) }
{
    let target = Target {
        kind,
        size: sample_size(),
        ranges: true,
    };
    match typed {
        Some(typed) => with_known(first, &target, place, typed.get()),
        None => first,
    }
}
