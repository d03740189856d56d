//! The rules of enums with numbers left out.

ghost use Rattle.std.specs.Prelude.{◌≡◌, map, IfOk};
ghost use Rattle.box_eval.specs.FlatRules.{flat_rule};
ghost use Rattle.box_eval.specs.FlatRules as Flat;
ghost use Rattle.rule_parts.specs.field_flatten.Rules.{enum_rule as enum_of, member_rule as member_of};
ghost use Rattle.rule_parts.specs.scene_slots.SeenSlots.{layout_of, scene_of};

use box_eval::{Rule, Term};
use osc_base::Path;
use rule_parts::{SceneSlots, guard_row, rows, under};
use std::alloc::{AllocError, Global};

/// The slot has that number.
fn equals(slot: u32, number: i64) -> Rule
    ensures { flat_rule result ≡ Flat.Equal (Flat.Slot slot) (Flat.Whole number) }
{
    Rule::Equal(Term::Slot(slot), Term::Whole(i128::from(number)))
}

/// For each number, the rule that the slot has it.
fn equal_row(alloc: Global, slot: u32, numbers: &[i64]) -> Result<Vec<Rule>, AllocError>
    ensures { IfOk result (λ rs. map flat_rule rs.items ≡ map (λ n. Flat.Equal (Flat.Slot slot) (Flat.Whole n)) numbers.now) }
{
    let mut row = Vec::new(alloc);
    'numbers: for number in numbers {
        row.push(equals(slot, *number))?;
    }
    Ok(row)
}

/// The slot has one of the numbers.
fn member_rule(
    alloc: Global,
    slots: &SceneSlots<'_>,
    path: &Path,
    numbers: &[i64],
) -> Result<Rule, AllocError>
    ensures { IfOk result (λ r. flat_rule r ≡ member_of (layout_of slots.now) path.now numbers.now) }
{
    rows::any(alloc, equal_row(alloc, slots.value(path), numbers)?)
}

/// The value at the path holds a number of its enum, if it is there.
pub fn enum_rule(
    alloc: Global,
    slots: &SceneSlots<'_>,
    path: &Path,
    numbers: &[i64],
) -> Result<Rule, AllocError>
    ensures { IfOk result (λ r. flat_rule r ≡ enum_of (scene_of slots.now) (layout_of slots.now) path.now numbers.now) }
{
    let row = guard_row(alloc, slots, slots.scene().guards(path))?;
    under(alloc, row, member_rule(alloc, slots, path, numbers)?)
}
