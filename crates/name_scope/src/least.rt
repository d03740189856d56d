//! The first fault of a list.

ghost use Rattle.std.specs.Prelude.{◌≡◌, Some};
ghost use Rattle.dsl_tree.specs.osc_base.FaultRows.{first_of, row, row_fault, is_before as precedes};

use dsl_tree::osc_base::{Fault, FaultCode, Place};

fn is_before(f: &Fault, g: &Fault) -> bool
    ensures { result ≡ precedes f.now g.now }
{
    let (f_place, g_place) = (f.place, g.place);
    f_place.file < g_place.file
        || (f_place.file == g_place.file
            && (f_place.token < g_place.token
                || (f_place.token == g_place.token && f.code.number() < g.code.number())))
}

fn least(first: Option<Fault>, fault: Fault) -> Fault
    ensures { Some result ≡ first_of first (Some fault) }
{
    match first {
        None => fault,
        Some(earlier) => {
            if is_before(&fault, &earlier) {
                fault
            } else {
                earlier
            }
        }
    }
}

/// The first fault, after one more that may be there.
pub fn with_fault(first: Option<Fault>, place: Place, code: FaultCode, holds: bool) -> Option<Fault>
    ensures { result ≡ first_of first (row_fault (row place code holds)) }
{
    if holds {
        Some(least(first, Fault { place, code }))
    } else {
        first
    }
}
