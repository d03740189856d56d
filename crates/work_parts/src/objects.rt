//! Objects and values.

ghost use Rattle.std.specs.Prelude.{◌≡◌, List};
ghost use Rattle.osc_base.specs.declared.path.Path.{Path};
ghost use Rattle.object_works.specs.scene_expansion.composition.declared.guard.Guard.{Guard};
ghost use Rattle.object_works.specs.scene_expansion.composition.Scenes.{Binding};
ghost use Rattle.object_works.specs.scene_expansion.expansion_laws.Counts.{range_rules as rules_of_range};
ghost use Rattle.object_works.specs.scene_expansion.expansion_laws.WorkNodes.{node_of};
ghost use Rattle.object_works.specs.scene_expansion.expansion_laws.Works as Works;
ghost use Rattle.work_counts.specs.program_texts.SeenTexts.{types_in};
ghost use Rattle.object_works.specs.scene_expansion.AllCounts.{counts_of};
ghost use Rattle.expr_nodes.specs.type_heads.Types.{Types};

use crate::ranges::has_gap;
use crate::with_own::{ticks_to, with_own};
use expr_nodes::TypeId;
use object_works::{Counts, ValueRange};
use work_counts::{ProgramTexts, Tally, object_tally};

/// An object of a type with so many steps left. A vehicle has three slots and a rule at each tick.
pub(crate) fn object_counts(texts: &ProgramTexts<'_>, steps: u32, of: TypeId, last: u32) -> Counts
    ensures { (path : Path) (guards : List Guard) (bindings : List Binding) → result ≡ counts_of last (node_of (types_in texts.now) (Works.Object steps path of guards bindings)) }
{
    let own = object_tally(texts, steps, of);
    if !texts.is_vehicle(of) {
        return with_own(1, 0, 0, own);
    }
    let ticks = ticks_to(last);
    with_own(1, 3 * ticks, ticks, own)
}

/// The rules of a range: an enum that leaves a number out has one.
fn range_rules(range: &ValueRange) -> u64
    ensures { result ≡ rules_of_range range.now }
{
    match range {
        ValueRange::Among { numbers } => u64::from(has_gap(numbers.as_slice())),
        ValueRange::Between { .. } | ValueRange::Chars => 0,
    }
}

/// A value.
pub(crate) fn value_counts(range: &ValueRange, last: u32) -> Counts
    ensures { (ts : Types) (path : Path) (guards : List Guard) → result ≡ counts_of last (node_of ts (Works.Value path guards range.now)) }
{
    with_own(0, 1, range_rules(range), Tally::none())
}
