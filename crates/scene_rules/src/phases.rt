//! The rules of phases.

ghost use Rattle.std.specs.Prelude.{◌≡◌, ◌++◌, ◌∷◌, [], pos, map, IfOk};
ghost use Rattle.osc_base.specs.declared.listing.SlotName.{SlotName};
ghost use Rattle.osc_base.specs.Paths.{same_path};
ghost use Rattle.box_eval.specs.FlatRules as Flat;
ghost use Rattle.box_eval.specs.FlatRules.{flat_rule, under as under_row};
ghost use Rattle.rule_parts.specs.composition.Scenes.{root_do as root};
ghost use Rattle.rule_parts.specs.composition.declared.spot.PhaseKind.{PhaseKind};
ghost use Rattle.rule_parts.specs.field_flatten.Rules.{arranged_rule as rule_of, kind_rules as rules_of_kind, root_do_rules as rules_of_root, cover_rules as rules_of_cover, follow_rules as rules_of_following, chosen_rules as rules_of_chosen, span_rule as rule_of_span, overlap_rules, starts, ends};
ghost use Rattle.rule_parts.specs.field_flatten.Shapes.{phase_start, phase_end};
ghost use Rattle.scene_rules.specs.Sides.{is_only_do};
ghost use Rattle.rule_parts.specs.scene_slots.SeenSlots.{layout_of, scene_of};

use crate::spans::{each_end, each_start, first_start, last_end, shared_tick};
use box_eval::{Rule, Term};
use osc_base::{Path, Step};
use rule_parts::{
    PhaseKind, PhaseSpot, SceneSlots, at_most, each_under, equal, guard_row, rows, terms, under,
    with_row,
};
use std::alloc::{AllocError, Global};

/// The first phase starts at a tick, each next when the one before ends, and the last ends at another tick.
fn follow_rules(
    alloc: Global,
    slots: &SceneSlots<'_>,
    from: u32,
    to: u32,
    members: &[Path],
) -> Result<Vec<Rule>, AllocError>
    ensures { IfOk result (λ rs. map flat_rule rs.items ≡ rules_of_following (layout_of slots.now) (Flat.Slot from) (Flat.Slot to) members.now) }
{
    let mut row = Vec::new(alloc);
    let mut last = from;
    'members: for member in members {
        row.push(equal(last, slots.start(member)))?;
        last = slots.end(member);
    }
    row.push(equal(last, to))?;
    Ok(row)
}

/// Two phases have one span.
fn span_rule(alloc: Global, slots: &SceneSlots<'_>, a: &Path, b: &Path) -> Result<Rule, AllocError>
    ensures { IfOk result (λ r. flat_rule r ≡ rule_of_span (layout_of slots.now) a.now b.now) }
{
    let start = equal(slots.start(a), slots.start(b));
    let end = equal(slots.end(a), slots.end(b));
    terms::both(alloc, start, end)
}

/// Each member has the span of the whole.
fn span_rules(
    alloc: Global,
    slots: &SceneSlots<'_>,
    whole: &Path,
    members: &[Path],
) -> Result<Vec<Rule>, AllocError>
    ensures { IfOk result (λ rs. map flat_rule rs.items ≡ map (λ m. rule_of_span (layout_of slots.now) m whole.now) members.now) }
{
    let mut row = Vec::new(alloc);
    'members: for member in members {
        row.push(span_rule(alloc, slots, member, whole)?)?;
    }
    Ok(row)
}

/// The slot has that number.
fn is_number(alloc: Global, slot: u32, number: usize) -> Result<Vec<Rule>, AllocError>
    ensures { IfOk result (λ rs. map flat_rule rs.items ≡ Flat.Equal (Flat.Slot slot) (Flat.Whole (pos number)) ∷ []) }
{
    let is = Rule::Equal(Term::Slot(slot), Term::Whole(number as i128));
    rows::with_rule(Vec::new(alloc), is)
}

/// A member has the span of the whole, if it is the chosen one.
fn chosen_rule(
    alloc: Global,
    slots: &SceneSlots<'_>,
    whole: &Path,
    number: usize,
    member: &Path,
) -> Result<Rule, AllocError>
    ensures { IfOk result (λ r. flat_rule r ≡ under_row (Flat.Equal (Flat.Slot ((layout_of slots.now).slot (SlotName.Choice whole.now))) (Flat.Whole (pos number)) ∷ []) (rule_of_span (layout_of slots.now) member.now whole.now)) }
{
    let chosen = is_number(alloc, slots.choice(whole), number)?;
    under(alloc, chosen, span_rule(alloc, slots, member, whole)?)
}

/// The chosen member has the span of the whole.
fn chosen_rules(
    alloc: Global,
    slots: &SceneSlots<'_>,
    whole: &Path,
    members: &[Path],
) -> Result<Vec<Rule>, AllocError>
    ensures { IfOk result (λ rs. map flat_rule rs.items ≡ rules_of_chosen (layout_of slots.now) whole.now 0 members.now) }
{
    let mut row = Vec::new(alloc);
    'members: for (number, member) in members.iter().enumerate() {
        row.push(chosen_rule(alloc, slots, whole, number, member)?)?;
    }
    Ok(row)
}

/// A phase takes at least a tick.
fn action_rules(alloc: Global, slots: &SceneSlots<'_>, path: &Path) -> Result<Vec<Rule>, AllocError>
    ensures { IfOk result (λ rs. map flat_rule rs.items ≡ Flat.Below (phase_start (layout_of slots.now) path.now) (phase_end (layout_of slots.now) path.now) ∷ []) }
{
    let takes_time = Rule::Below(Term::Slot(slots.start(path)), Term::Slot(slots.end(path)));
    rows::with_rule(Vec::new(alloc), takes_time)
}

/// The whole starts with the first member that starts and ends with the last that ends.
fn cover_rules(
    alloc: Global,
    slots: &SceneSlots<'_>,
    whole: &Path,
    members: &[Path],
) -> Result<Vec<Rule>, AllocError>
    ensures { IfOk result (λ rs. map flat_rule rs.items ≡ rules_of_cover (layout_of slots.now) whole.now members.now) }
{
    let row = first_start(alloc, slots, slots.start(whole), members)?;
    with_row(row, last_end(alloc, slots, slots.end(whole), members)?)
}

/// The members start with the whole, and it ends with the last that ends.
fn start_rules(
    alloc: Global,
    slots: &SceneSlots<'_>,
    whole: &Path,
    members: &[Path],
) -> Result<Vec<Rule>, AllocError>
    ensures { IfOk result (λ rs. map flat_rule rs.items ≡ rules_of_kind PhaseKind.Start (layout_of slots.now) whole.now members.now) }
{
    let row = each_start(alloc, slots, slots.start(whole), members)?;
    with_row(row, last_end(alloc, slots, slots.end(whole), members)?)
}

/// The whole starts with the first member that starts, and the members end with it.
fn end_rules(
    alloc: Global,
    slots: &SceneSlots<'_>,
    whole: &Path,
    members: &[Path],
) -> Result<Vec<Rule>, AllocError>
    ensures { IfOk result (λ rs. map flat_rule rs.items ≡ rules_of_kind PhaseKind.End (layout_of slots.now) whole.now members.now) }
{
    let row = first_start(alloc, slots, slots.start(whole), members)?;
    with_row(row, each_end(alloc, slots, slots.end(whole), members)?)
}

/// The members start and end with the whole.
fn equal_rules(
    alloc: Global,
    slots: &SceneSlots<'_>,
    whole: &Path,
    members: &[Path],
) -> Result<Vec<Rule>, AllocError>
    ensures { IfOk result (λ rs. map flat_rule rs.items ≡ rules_of_kind PhaseKind.Equal (layout_of slots.now) whole.now members.now) }
{
    let row = each_start(alloc, slots, slots.start(whole), members)?;
    with_row(row, each_end(alloc, slots, slots.end(whole), members)?)
}

/// The members cover the whole, and share a tick.
fn any_rules(
    alloc: Global,
    slots: &SceneSlots<'_>,
    whole: &Path,
    members: &[Path],
) -> Result<Vec<Rule>, AllocError>
    ensures { IfOk result (λ rs. map flat_rule rs.items ≡ rules_of_cover (layout_of slots.now) whole.now members.now ++ overlap_rules (starts (layout_of slots.now) members.now) (ends (layout_of slots.now) members.now)) }
{
    let row = cover_rules(alloc, slots, whole, members)?;
    with_row(row, shared_tick(alloc, slots, members)?)
}

/// The parts that a phase's kind asks for.
fn kind_rules(
    alloc: Global,
    slots: &SceneSlots<'_>,
    kind: PhaseKind,
    path: &Path,
    members: &[Path],
) -> Result<Vec<Rule>, AllocError>
    ensures { IfOk result (λ rs. map flat_rule rs.items ≡ rules_of_kind kind (layout_of slots.now) path.now members.now) }
{
    match kind {
        PhaseKind::Serial => {
            follow_rules(alloc, slots, slots.start(path), slots.end(path), members)
        }
        PhaseKind::Start => start_rules(alloc, slots, path, members),
        PhaseKind::End => end_rules(alloc, slots, path, members),
        PhaseKind::Equal => equal_rules(alloc, slots, path, members),
        PhaseKind::Any => any_rules(alloc, slots, path, members),
        PhaseKind::OneOf => chosen_rules(alloc, slots, path, members),
        PhaseKind::Scenario => span_rules(alloc, slots, path, members),
        PhaseKind::Action => action_rules(alloc, slots, path),
        PhaseKind::Wait => Ok(Vec::new(alloc)),
    }
}

/// The only step is the name `do`.
fn is_do(steps: &[Step]) -> bool
    ensures { result ≡ is_only_do steps.now }
{
    match steps {
        [Step::Name(name)] => name.as_str() == "do",
        _ => false,
    }
}

/// The phase is the `do` of the named scenario.
fn is_root_do(path: &Path) -> bool
    ensures { result ≡ same_path path.now root }
{
    is_do(path.steps.as_slice())
}

/// The `do` of the named scenario starts at tick 0.
fn root_do_rules(
    alloc: Global,
    slots: &SceneSlots<'_>,
    path: &Path,
) -> Result<Vec<Rule>, AllocError>
    ensures { IfOk result (λ rs. map flat_rule rs.items ≡ rules_of_root (layout_of slots.now) path.now) }
{
    if is_root_do(path) {
        is_number(alloc, slots.start(path), 0)
    } else {
        Ok(Vec::new(alloc))
    }
}

/// A phase doesn't end before it starts.
fn order_rules(alloc: Global, slots: &SceneSlots<'_>, path: &Path) -> Result<Vec<Rule>, AllocError>
    ensures { IfOk result (λ rs. map flat_rule rs.items ≡ Flat.AtMost (phase_start (layout_of slots.now) path.now) (phase_end (layout_of slots.now) path.now) ∷ []) }
{
    let in_order = at_most(slots.start(path), slots.end(path));
    rows::with_rule(Vec::new(alloc), in_order)
}

/// The parts of a phase's rule.
fn phase_parts(
    alloc: Global,
    slots: &SceneSlots<'_>,
    phase: &PhaseSpot,
) -> Result<Vec<Rule>, AllocError>
    ensures { IfOk result (λ rs. map flat_rule rs.items ≡ Flat.AtMost (phase_start (layout_of slots.now) phase.now.path) (phase_end (layout_of slots.now) phase.now.path) ∷ rules_of_kind phase.now.kind (layout_of slots.now) phase.now.path phase.now.members ++ rules_of_root (layout_of slots.now) phase.now.path) }
{
    let row = order_rules(alloc, slots, &phase.path)?;
    let row = with_row(
        row,
        kind_rules(
            alloc,
            slots,
            phase.kind,
            &phase.path,
            phase.members.as_slice(),
        )?,
    )?;
    with_row(row, root_do_rules(alloc, slots, &phase.path)?)
}

/// A phase is arranged as its kind says, if it is there.
pub fn arranged_rule(
    alloc: Global,
    slots: &SceneSlots<'_>,
    phase: &PhaseSpot,
) -> Result<Rule, AllocError>
    ensures { IfOk result (λ r. flat_rule r ≡ rule_of (scene_of slots.now) (layout_of slots.now) phase.now) }
{
    let conditions = guard_row(alloc, slots, slots.scene().guards(&phase.path))?;
    let parts = phase_parts(alloc, slots, phase)?;
    rows::all(alloc, each_under(alloc, conditions.as_slice(), parts)?)
}
