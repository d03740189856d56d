//! The conditions that the objects of a type meet.

ghost use Rattle.std.specs.Prelude.{◌≡◌, ◌++◌, ◌∷◌, [], flat_map, map, option_to_list, reverse, IfOk, OnOk};
ghost use Rattle.program_texts.specs.composition.Givens.{value_tree};
ghost use Rattle.program_texts.specs.composition.SeenParts.{seen_occurrence};
ghost use Rattle.dsl_tree.specs.ExprTree.{ExprTree};
ghost use Rattle.expr_nodes.specs.Checks.{IsChecked};
ghost use Rattle.expr_nodes.specs.Scope as Scopes;
ghost use Rattle.expr_nodes.specs.SeenNames.{seen_scope};
ghost use Rattle.expr_nodes.specs.Typing.{first};
ghost use Rattle.program_texts.specs.program_fields.SeenFields.{seen_field};
ghost use Rattle.program_texts.specs.SeenTexts.{types_in};
ghost use Rattle.expr_nodes.specs.type_heads.Table.{bases};
ghost use Rattle.text_constraints.specs.Kept.{seen_owner};
ghost use Rattle.text_constraints.specs.OwnTexts.{base_kept, condition_kept, conditions_kept, heir_kept};
ghost use Rattle.text_constraints.specs.Sites.{seen_site};

use crate::rules::{Owner, equal};
use crate::targets::TextSite;
use dsl_tree::{ConditionValue, HeirCondition, Ident};
use expr_eval::{Checked, enum_name, it, literals, pointed};
use expr_nodes::{Scope, Types};
use osc_base::{Boxed, Place, Row, Strength};
use program_texts::{Occurrence, ProgramTexts, TypeField, TypeId};
use std::alloc::{AllocError, Global};

/// `true` or `false`.
fn truth(alloc: Global, types: &Types, place: Place, value: bool) -> Result<Checked, AllocError>
    ensures { IfOk result (λ c. (sc : Scopes.Scope) → IsChecked types.now.table sc (ExprTree.Truth place value) c) }
{
    Ok(Checked {
        fault: None,
        typed: Some(Boxed::new(alloc, literals::truth(place, value))?),
    })
}

/// The value of a condition, a member with the name of its enum.
fn value_checked(
    alloc: Global,
    types: &Types,
    of: &Ident,
    value: &ConditionValue,
) -> Result<Checked, AllocError>
    ensures { IfOk result (λ c. (sc : Scopes.Scope) → IsChecked types.now.table sc (value_tree of.now value.now) c) }
{
    match value {
        ConditionValue::Truth { place, value } => truth(alloc, types, *place, *value),
        ConditionValue::Name(name) => enum_name(alloc, types, of, name),
        ConditionValue::EnumName { member, .. } => enum_name(alloc, types, of, member),
    }
}

/// Where the value of a condition begins, a member with the name of its enum.
fn value_place(of: &Ident, value: &ConditionValue) -> Place
    ensures { result ≡ first (value_tree of.now value.now) }
{
    match value {
        ConditionValue::Truth { place, .. } => *place,
        ConditionValue::Name(_) | ConditionValue::EnumName { .. } => of.place,
    }
}

/// A field of `it`.
pub fn field_checked(
    alloc: Global,
    types: &Types,
    scope: &Scope<'_>,
    place: Place,
    name: &Ident,
) -> Result<Checked, AllocError>
    ensures { IfOk result (λ c. IsChecked types.now.table (seen_scope scope.now) (ExprTree.Dot (ExprTree.It place) name.now) c) }
{
    let head = it(alloc, types, scope, place)?;
    pointed(alloc, types, head, name)
}

/// The constraint that a condition on a field gives.
fn condition(
    alloc: Global,
    types: &Types,
    text: &TextSite<'_, '_, '_>,
    owner: &Owner<'_, '_>,
    place: Place,
    condition: &HeirCondition,
    looked_at: &TypeField<'_>,
) -> Result<Occurrence, AllocError>
    ensures { IfOk result (λ o. seen_occurrence o ≡ condition_kept types.now.table (seen_site text.now) (seen_owner owner.now) place condition.now (seen_field looked_at.now)) }
{
    let of = &looked_at.decl.of;
    let left = field_checked(alloc, types, text.scope, place, &condition.field)?;
    let right = value_checked(alloc, types, of, &condition.value)?;
    let begins = value_place(of, &condition.value);
    equal(
        alloc,
        text,
        owner,
        place,
        Strength::Hard,
        begins,
        left,
        right,
    )
}

/// Puts what a condition that the objects of a type meet gives at the end.
fn push_condition(
    alloc: Global,
    texts: &ProgramTexts<'_>,
    text: &TextSite<'_, '_, '_>,
    owner: &Owner<'_, '_>,
    into: &mut Vec<Occurrence>,
    place: Place,
    of: TypeId,
    heir: &HeirCondition,
) -> Result<(), AllocError>
    ensures { OnOk result (map seen_occurrence into.new.items ≡ map seen_occurrence into.old.items ++ heir_kept (types_in texts.now) of (seen_site text.now) (seen_owner owner.now) place heir.now) }
{
    let Some(looked_at) = texts.field(of, heir.field.text.as_str()) else {
        return Ok(());
    };
    into.push(condition(alloc, texts.types(), text, owner, place, heir, &looked_at)?)?;
    Ok(())
}

/// Puts what the condition of a type, or of one that it inherits from, gives at the end.
fn push_base(
    alloc: Global,
    texts: &ProgramTexts<'_>,
    text: &TextSite<'_, '_, '_>,
    owner: &Owner<'_, '_>,
    into: &mut Vec<Occurrence>,
    place: Place,
    of: TypeId,
    base: TypeId,
) -> Result<(), AllocError>
    ensures { OnOk result (map seen_occurrence into.new.items ≡ map seen_occurrence into.old.items ++ base_kept (types_in texts.now) of (seen_site text.now) (seen_owner owner.now) place base) }
{
    match texts.heir_condition(base) {
        Some(heir) => push_condition(alloc, texts, text, owner, into, place, of, heir),
        None => Ok(()),
    }
}

/// A type and those that it inherits from, nearest first.
fn line_of(alloc: Global, texts: &ProgramTexts<'_>, of: TypeId) -> Result<Row<TypeId>, AllocError>
    ensures { IfOk result (λ line. line ≡ of ∷ bases (types_in texts.now).table.heads of) }
{
    let mut line = Row::new(alloc);
    line.push(of)?;
    let mut at = texts.types().base(of);
    let mut steps = texts.types().count();
    while steps > 0 {
        let Some(current) = at else {
            return Ok(line);
        };
        line.push(current)?;
        at = texts.types().base(current);
        steps -= 1;
    }
    Ok(line)
}

/// Puts what the conditions of types give at the end, the last of them first.
fn push_line(
    alloc: Global,
    texts: &ProgramTexts<'_>,
    text: &TextSite<'_, '_, '_>,
    owner: &Owner<'_, '_>,
    into: &mut Vec<Occurrence>,
    place: Place,
    of: TypeId,
    line: &[TypeId],
) -> Result<(), AllocError>
    ensures { OnOk result (map seen_occurrence into.new.items ≡ map seen_occurrence into.old.items ++ flat_map (base_kept (types_in texts.now) of (seen_site text.now) (seen_owner owner.now) place) (reverse line.now)) }
{
    let mut left = line.len();
    while left > 0 {
        left -= 1;
        push_base(alloc, texts, text, owner, into, place, of, line[left])?;
    }
    Ok(())
}

/// Puts what the conditions that the objects of a type meet give at the end, those of the farthest type first.
pub(crate) fn push_conditions(
    alloc: Global,
    texts: &ProgramTexts<'_>,
    text: &TextSite<'_, '_, '_>,
    owner: &Owner<'_, '_>,
    into: &mut Vec<Occurrence>,
    place: Place,
    of: TypeId,
) -> Result<(), AllocError>
    ensures { OnOk result (map seen_occurrence into.new.items ≡ map seen_occurrence into.old.items ++ conditions_kept (types_in texts.now) (seen_site text.now) (seen_owner owner.now) place of) }
{
    let line = line_of(alloc, texts, of)?;
    push_line(alloc, texts, text, owner, into, place, of, line.as_slice())
}
