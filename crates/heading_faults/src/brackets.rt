//! The faults of the base units in brackets.

ghost use Rattle.std.specs.Prelude.{◌≡◌, [], ◌∷◌, not, IfOk};
ghost use Rattle.type_members.specs.osc_base.FaultRows.{first_from, row};
ghost use Rattle.type_members.specs.type_heads.HeadingFaults.{bracket_rows};
ghost use Rattle.type_members.specs.type_heads.Units.{is_base_unit as is_base};

use dsl_tree::BasePart;
use fault_sets::TextSet;
use name_scope::with_fault;
use osc_base::{Fault, FaultCode};
use std::alloc::{AllocError, Global};

/// Whether it is one of the eight base units.
pub fn is_base_unit(name: &str) -> bool
    ensures { result ≡ is_base name.now }
{
    name == "kg"
        || name == "m"
        || name == "s"
        || name == "A"
        || name == "K"
        || name == "mol"
        || name == "cd"
        || name == "rad"
}

/// Faults of a base unit, that is mentioned before or not.
fn with_base(first: Option<Fault>, base: &BasePart, is_met: bool) -> Option<Fault>
    ensures { result ≡ first_from first (row base.now.name.place FaultCode.Twice is_met ∷ row base.now.name.place FaultCode.Unknown (not (is_base base.now.name.text)) ∷ []) }
{
    let place = base.name.place;
    let is_known = is_base_unit(base.name.text.as_str());
    let first = with_fault(first, place, FaultCode::Twice, is_met);
    with_fault(first, place, FaultCode::Unknown, !is_known)
}

/// Faults of the base units that are mentioned in brackets.
pub fn with_brackets(
    alloc: Global,
    first: Option<Fault>,
    bases: &[BasePart],
) -> Result<Option<Fault>, AllocError>
    ensures { IfOk result (λ f. f ≡ first_from first (bracket_rows [] bases.now)) }
{
    let mut earlier = TextSet::new(alloc);
    let mut found = first;
    for base in bases {
        let is_met = earlier.meet(base.name.text.as_str())?;
        found = with_base(found, base, is_met);
    }
    Ok(found)
}
