//! Places after the first fault so far, at which no other fault counts any more.

ghost use Rattle.std.specs.Prelude.{◌≡◌};
ghost use Rattle.fault_sets.specs.Passing.{is_after, is_past as is_past_first};

use type_heads::{Fault, Place};

/// Whether a place is after that of a fault.
fn is_past_fault(fault: Fault, place: Place) -> bool
    ensures { result ≡ is_after place fault.place }
{
    fault.place.file < place.file
        || (fault.place.file == place.file && fault.place.token < place.token)
}

/// Whether a place is after that of the first fault so far.
pub fn is_past(first: Option<Fault>, place: Place) -> bool
    ensures { result ≡ is_past_first first place }
{
    match first {
        Some(fault) => is_past_fault(fault, place),
        None => false,
    }
}
