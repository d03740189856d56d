//! The scopes of the expressions in a `do`.

ghost use Rattle.std.specs.Prelude.{◌≡◌, map, option_map};
ghost use Rattle.composition.specs.type_heads.Types.{Types};
ghost use Rattle.composition.specs.Calls.{scope_at as scope_in};
ghost use Rattle.expr_nodes.specs.SeenNames.{seen_it, seen_scope};
ghost use Rattle.program_calls.specs.PlacedPhases.{seen_turn};
ghost use Rattle.program_calls.specs.SeenLabels.{do_labels, seen_labels};

use expr_nodes::{It, LabelTable, Scope, Turn, TypeId};

/// The scope of an expression in the text of a type, as it is seen from a way. The labels are those of the type's
/// `do`.
pub fn scope_at<'a>(
    holder: TypeId,
    it: Option<It>,
    labels: &'a LabelTable,
    way: &'a [Turn],
) -> Scope<'a>
    ensures { (ts : Types) → seen_labels labels.entry.now ≡ do_labels ts holder → seen_scope result ≡ scope_in ts holder (option_map seen_it it) (map seen_turn way.entry.now) }
{
    Scope {
        holder,
        it,
        labels: Some(labels),
        way,
    }
}
