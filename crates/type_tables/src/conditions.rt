//! The conditions of conditional subtypes.

ghost use Rattle.std.specs.Prelude.{◌≡◌, map, IfOk};
ghost use Rattle.type_members.specs.type_heads.Bodied.{seen_body};
ghost use Rattle.type_members.specs.type_heads.Conditions.{condition_value as value_in};
ghost use Rattle.type_members.specs.type_heads.Members.{table_fields};
ghost use Rattle.type_members.specs.type_heads.Table.{all_types, form};
ghost use Rattle.type_members.specs.Listed.{lists_of};
ghost use Rattle.type_tables.specs.Looked.{condition_by, condition_of, condition_with, field_type_in};

use crate::FieldLists;
use crate::field_types::{all_have_types, listed_type};
use dsl_tree::{ConditionValue, HeirCondition};
use std::alloc::{AllocError, Global};
use type_members::{Body, ConditionEntry, Form, Heads, MemberLists, Text, TypeId, heir_condition};

/// The number of a value in a type that the field of a condition has, if such fields hold such values.
fn condition_value(heads: &Heads, of: TypeId, value: &ConditionValue) -> Option<i64>
    ensures { result ≡ value_in (form heads.now of) value.now }
{
    match (heads.form(of), value) {
        (Form::Truth, ConditionValue::Truth { place: _, value }) => Some(i64::from(*value)),
        (Form::Enum(_), ConditionValue::Name(name)) => heads.enum_number(of, name.text.as_str()),
        (Form::Enum(_), ConditionValue::EnumName { of: _, member }) => {
            heads.enum_number(of, member.text.as_str())
        }
        _ => None,
    }
}

/// The condition of a conditional subtype, given the type of the field that it looks at.
fn condition_on(
    alloc: Global,
    heads: &Heads,
    field_type: Option<TypeId>,
    of: TypeId,
    condition: &HeirCondition,
) -> Result<Option<ConditionEntry>, AllocError>
    ensures { IfOk result (λ entry. entry ≡ condition_with heads.now field_type of condition.now) }
{
    let Some(field_type) = field_type else {
        return Ok(None);
    };
    let Some(value) = condition_value(heads, field_type, &condition.value) else {
        return Ok(None);
    };
    let field = Text::copy(alloc, condition.field.text.as_str())?;
    Ok(Some(ConditionEntry::new(field, value, of)))
}

/// The condition of a type, if it is a conditional subtype. The members of its base are gone over.
fn listed_condition(
    alloc: Global,
    heads: &Heads,
    bodies: &[Body<'_>],
    lists: &MemberLists<'_>,
    of: TypeId,
) -> Result<Option<ConditionEntry>, AllocError>
    ensures { IfOk result (λ entry. entry ≡ condition_of heads.now (map seen_body bodies.now) (lists_of lists.now) of) }
{
    let Some(base) = heads.base(of) else {
        return Ok(None);
    };
    let Some(condition) = heir_condition(bodies, of) else {
        return Ok(None);
    };
    let field_type = listed_type(heads, lists, base, condition.field.text.as_str());
    condition_on(alloc, heads, field_type, of, condition)
}

/// The type of the field of that name.
fn named_type(fields: &FieldLists, of: TypeId, name: &str) -> Option<TypeId>
    ensures { result ≡ field_type_in fields.now of name.now }
{
    let field = fields.named(of, name)?;
    Some(field.of().of)
}

/// The condition of a type, if it is a conditional subtype. The field of its base is found by name.
fn named_condition(
    alloc: Global,
    heads: &Heads,
    bodies: &[Body<'_>],
    fields: &FieldLists,
    of: TypeId,
) -> Result<Option<ConditionEntry>, AllocError>
    ensures { IfOk result (λ entry. entry ≡ condition_by heads.now (map seen_body bodies.now) (field_type_in fields.now) of) }
{
    let Some(base) = heads.base(of) else {
        return Ok(None);
    };
    let Some(condition) = heir_condition(bodies, of) else {
        return Ok(None);
    };
    let field_type = named_type(fields, base, condition.field.text.as_str());
    condition_on(alloc, heads, field_type, of, condition)
}

fn listed_conditions(
    alloc: Global,
    heads: &Heads,
    bodies: &[Body<'_>],
    lists: &MemberLists<'_>,
) -> Result<Vec<Option<ConditionEntry>>, AllocError>
    ensures { IfOk result (λ all. all.items ≡ map (condition_of heads.now (map seen_body bodies.now) (lists_of lists.now)) (all_types heads.now)) }
{
    let mut all = Vec::new(alloc);
    for number in 0..heads.count() {
        all.push(listed_condition(alloc, heads, bodies, lists, TypeId(number))?)?;
    }
    Ok(all)
}

fn named_conditions(
    alloc: Global,
    heads: &Heads,
    bodies: &[Body<'_>],
    fields: &FieldLists,
) -> Result<Vec<Option<ConditionEntry>>, AllocError>
    ensures { IfOk result (λ all. all.items ≡ map (condition_by heads.now (map seen_body bodies.now) (field_type_in fields.now)) (all_types heads.now)) }
{
    let mut all = Vec::new(alloc);
    for number in 0..heads.count() {
        all.push(named_condition(alloc, heads, bodies, fields, TypeId(number))?)?;
    }
    Ok(all)
}

/// The condition of each type, if it is a conditional subtype, given the fields of each type. If each field has a declared
/// type, no list of members is gone over.
pub fn all_conditions(
    alloc: Global,
    heads: &Heads,
    bodies: &[Body<'_>],
    lists: &MemberLists<'_>,
    fields: &FieldLists,
) -> Result<Vec<Option<ConditionEntry>>, AllocError>
    requires { fields.now ≡ map (table_fields heads.now) (lists_of lists.now) }
    ensures { IfOk result (λ all. all.items ≡ map (condition_of heads.now (map seen_body bodies.now) (lists_of lists.now)) (all_types heads.now)) }
{
    if all_have_types(heads, lists.rows()) {
        named_conditions(alloc, heads, bodies, fields)
    } else {
        listed_conditions(alloc, heads, bodies, lists)
    }
}
