//! What is known of an operator, with the faults of its parts.

ghost use Rattle.std.specs.Prelude.{◌≡◌};
ghost use Rattle.expr_nodes.specs.osc_base.FaultRows.{first_of};

use crate::parts::least;
use expr_nodes::{Checked, Fault};

/// What is known of an operator, with the faults of its parts.
pub fn with_parts(own: Checked, left: Option<Fault>, right: Option<Fault>) -> Checked
    ensures fault { result.fault ≡ first_of (first_of own.fault left) right }
    ensures typed { result.typed ≡ own.typed }
{
    Checked {
        fault: least(least(own.fault, left), right),
        typed: own.typed,
    }
}

/// What is known of an operator, with the fault of its part.
pub fn with_part(own: Checked, part: Option<Fault>) -> Checked
    ensures fault { result.fault ≡ first_of own.fault part }
    ensures typed { result.typed ≡ own.typed }
{
    Checked {
        fault: least(own.fault, part),
        typed: own.typed,
    }
}
