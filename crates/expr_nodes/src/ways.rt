//! Ways into a `do`: which member of each `one_of` they take.

ghost use Rattle.std.specs.Prelude.{◌≡◌};
ghost use Rattle.std.specs.List.{list_any};
ghost use Rattle.type_model.specs.osc_base.Paths.{same_path};
ghost use Rattle.expr_nodes.specs.Ways.{leads_into as way_leads_into, same_turn};

use type_model::Path;

/// A `one_of` on the way to a phase, and the number of the member that the way takes.
#[derive(Drop)]
pub struct Turn {
    pub phase: Path,
    pub member: u32,
}

/// Whether two turns take the same member of the same `one_of`.
fn is_same_turn(left: &Turn, right: &Turn) -> bool
    ensures { result ≡ same_turn left.now right.now }
{
    left.phase.is(&right.phase) && left.member == right.member
}

/// Whether a way takes a turn.
fn takes_turn(way: &[Turn], turn: &Turn) -> bool
    ensures { result ≡ list_any (same_turn turn.now) way.now }
{
    for other in way {
        if is_same_turn(turn, other) {
            return true;
        }
    }
    false
}

/// Whether a way leads into each member of a `one_of` in which the other stands.
pub fn leads_into(way: &[Turn], other: &[Turn]) -> bool
    ensures { result ≡ way_leads_into way.now other.now }
{
    for turn in other {
        if !takes_turn(way, turn) {
            return false;
        }
    }
    true
}
