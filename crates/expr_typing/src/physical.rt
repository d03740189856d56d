//! Numbers with a unit.

ghost use Rattle.std.specs.Prelude.{◌≡◌, ◌≤◌, ◌^◌, unsigned_abs, option_map, IfOk};
ghost use Rattle.dsl_tree.specs.osc_base.Fraction.{value};
ghost use Rattle.dsl_tree.specs.osc_base.FaultRows.{first_fault};
ghost use Rattle.dsl_tree.specs.osc_base.LowestTerms.{lowest};
ghost use Rattle.expr_nodes.specs.units_si.Literals.{literal_count};
ghost use Rattle.expr_nodes.specs.type_heads.Shown.{shown_unit};
ghost use Rattle.expr_nodes.specs.Operators.{physical_rows, physical_typed};
ghost use Rattle.expr_nodes.specs.Seen.{seen, seen_part};
ghost use Rattle.expr_nodes.specs.SeenNames.{count_of, physical_of};

use crate::literals::{constant_at, decimal, is_long};
use dsl_tree::Digits;
use dsl_tree::osc_base::FaultCode;
use expr_nodes::{Boxed, Checked, Fraction, Typed, Types, Unit, ValueKind, gcd, literal};
use std::alloc::{AllocError, Global};
use typed_parts::fault_if;

/// The slot value of a literal.
fn slot_value(number: &Fraction, unit: &Unit) -> Option<i64>
    ensures { result ≡ literal_count (value number.now) (value unit.now.factor) (value unit.now.offset) }
{
    literal(number, unit)
}

/// A number with a unit, in thousandths of the base unit. `None` when no field can hold it, or when it has too many
/// places.
fn count_in(digits: &Digits, unit: &Unit) -> Option<i64>
    ensures { result ≡ count_of digits.now (shown_unit unit.now) }
{
    if is_long(digits) {
        return None;
    }
    slot_value(&decimal(digits.digits, digits.places), unit)
}

/// A number of thousandths, in lowest terms.
fn thousandths(count: i64) -> Fraction
    ensures value { value result ≡ lowest count 1000 }
    ensures top { unsigned_abs result.num ≤ 2 ^ 120 }
    ensures bottom { unsigned_abs result.den ≤ 2 ^ 120 }
{
    let magnitude = u128::from(count.unsigned_abs());
    let divisor = gcd(magnitude, 1000);
    let shared = (magnitude / divisor) as i128;
    Fraction {
        num: if count < 0 { -shared } else { shared },
        den: (1000 / divisor) as i128,
    }
}

fn physical_node(digits: &Digits, unit: &Unit) -> Option<Typed>
    ensures { option_map seen result ≡ physical_of digits.now (shown_unit unit.now) }
{
    match count_in(digits, unit) {
        Some(count) => {
            let kind = ValueKind::Number(unit.exponents);
            Some(constant_at(digits.place, kind, thousandths(count)))
        }
        None => None,
    }
}

fn physical_part(
    alloc: Global,
    digits: &Digits,
    unit: &Unit,
) -> Result<Option<Boxed<Typed>>, AllocError>
    ensures { IfOk result (λ t. seen_part t ≡ physical_of digits.now (shown_unit unit.now)) }
{
    match physical_node(digits, unit) {
        Some(typed) => Ok(Some(Boxed::new(alloc, typed)?)),
        None => Ok(None),
    }
}

/// A number with a unit. A unit that isn't declared is refused, and so is a number that no field can hold, or that has
/// more than 18 places.
pub fn physical(
    alloc: Global,
    types: &Types,
    digits: &Digits,
    name: &str,
) -> Result<Checked, AllocError>
    ensures fault { IfOk result (λ c. c.fault ≡ first_fault (physical_rows types.now.table digits.now name.now)) }
    ensures typed { IfOk result (λ c. seen_part c.typed ≡ physical_typed types.now.table digits.now name.now) }
{
    match types.unit(name) {
        Some(unit) => {
            let too_large = count_in(digits, &unit).is_none();
            let fault = fault_if(digits.place, FaultCode::TooLarge, too_large);
            let typed = physical_part(alloc, digits, &unit)?;
            Ok(Checked { fault, typed })
        }
        None => Ok(Checked {
            fault: fault_if(digits.place, FaultCode::Unknown, true),
            typed: None,
        }),
    }
}
