//! The faults and the typed form of ranges and brackets.

ghost use Rattle.std.specs.Prelude.{◌≡◌, IfOk};
ghost use Rattle.dsl_tree.specs.osc_base.FaultRows.{first_fault};
ghost use Rattle.expr_nodes.specs.Typed.{Span, kind};
ghost use Rattle.expr_nodes.specs.Sizes.{info_at, unit_size};
ghost use Rattle.expr_nodes.specs.Parts.{on_two};
ghost use Rattle.expr_nodes.specs.Operators.{part_rows, span_rows, span_typed, group_typed};
ghost use Rattle.expr_nodes.specs.Seen.{seen_part};

use dsl_tree::osc_base::FaultCode;
use expr_nodes::{Boxed, Checked, Fault, Info, Place, Size, Typed};
use std::alloc::{AllocError, Global};
use typed_parts::{begun, fault_if, least};

/// The fault of a part of a range or list: it is one value.
pub fn part_fault(part: &Option<Boxed<Typed>>) -> Option<Fault>
    ensures { result ≡ first_fault (part_rows (seen_part part.now)) }
{
    match part {
        Some(typed) => fault_if(
            typed.get().info().place,
            FaultCode::Clash,
            !typed.get().is_scalar(),
        ),
        None => None,
    }
}

fn span_fault(low: &Option<Boxed<Typed>>, high: &Option<Boxed<Typed>>) -> Option<Fault>
    ensures { result ≡ first_fault (span_rows (seen_part low.now) (seen_part high.now)) }
{
    least(part_fault(low), part_fault(high))
}

fn span_of(
    alloc: Global,
    place: Place,
    low: Option<Boxed<Typed>>,
    high: Option<Boxed<Typed>>,
) -> Result<Option<Boxed<Typed>>, AllocError>
    ensures { IfOk result (λ t. seen_part t ≡ on_two (seen_part low) (seen_part high) (λ x y. Span (info_at place (kind x) unit_size) x y)) }
{
    match low {
        Some(low) => match high {
            Some(high) => {
                let info = Info {
                    place,
                    kind: low.get().info().kind,
                    size: Size::unit(),
                };
                Ok(Some(Boxed::new(alloc, Typed::Span { info, low, high })?))
            }
            None => Ok(None),
        },
        None => Ok(None),
    }
}

/// A range.
pub(crate) fn span(
    alloc: Global,
    place: Place,
    low: Option<Boxed<Typed>>,
    high: Option<Boxed<Typed>>,
) -> Result<Checked, AllocError>
    ensures fault { IfOk result (λ c. c.fault ≡ first_fault (span_rows (seen_part low) (seen_part high))) }
    ensures typed { IfOk result (λ c. seen_part c.typed ≡ span_typed place (seen_part low) (seen_part high)) }
{
    match span_fault(&low, &high) {
        None => Ok(Checked {
            fault: None,
            typed: span_of(alloc, place, low, high)?,
        }),
        Some(fault) => Ok(Checked {
            fault: Some(fault),
            typed: None,
        }),
    }
}

/// An expression in brackets begins where its bracket does.
pub(crate) fn group(
    alloc: Global,
    place: Place,
    part: Option<Boxed<Typed>>,
) -> Result<Option<Boxed<Typed>>, AllocError>
    ensures { IfOk result (λ t. seen_part t ≡ group_typed place (seen_part part)) }
{
    match part {
        Some(part) => Ok(Some(Boxed::new(alloc, begun(place, part.into_inner()))?)),
        None => Ok(None),
    }
}
