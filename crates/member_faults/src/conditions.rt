//! The faults of conditions.

ghost use Rattle.std.specs.Prelude.{◌≡◌, ◌||◌, ◌∷◌, None, false, not, is_none, is_some, nat_eq};
ghost use Rattle.std.specs.Option.{option_map_or};
ghost use Rattle.type_members.specs.osc_base.FaultRows.{first_from, row};
ghost use Rattle.type_members.specs.type_heads.Form.{Form as FormOf};
ghost use Rattle.type_members.specs.type_heads.Seen.{seen_form};
ghost use Rattle.type_members.specs.type_heads.Table.{enum_members, enum_number, form, named};
ghost use Rattle.type_members.specs.type_heads.MemberFaults.{can_decide as decides, held_rows};

use dsl_tree::{ConditionValue, FieldDecl, HeirCondition, Ident};
use name_scope::with_fault;
use osc_base::{Fault, FaultCode};
use type_heads::{Form, Heads, TypeId};

/// Whether a condition can look at a field of this type.
pub fn can_decide(form: Form<'_>) -> bool
    ensures { result ≡ decides (seen_form form.entry) }
{
    matches!(form, Form::Truth | Form::Enum(_))
}

/// Whether an enum has no member of that name.
fn is_no_member(heads: &Heads, of: TypeId, name: &str) -> bool
    ensures { result ≡ is_none (enum_number heads.now of name.now) }
{
    heads.enum_number(of, name).is_none()
}

/// Whether a name means no type, or another one.
fn is_other_type(heads: &Heads, of: TypeId, name: &Ident) -> bool
    ensures { result ≡ not (option_map_or (nat_eq of) (named heads.now None name.now.text) false) }
{
    match heads.named(None, name.text.as_str()) {
        Some(meant) => of != meant,
        None => true,
    }
}

/// Faults of the value of a condition on a field of an enum.
fn with_enum_value(
    first: Option<Fault>,
    heads: &Heads,
    of: TypeId,
    value: &ConditionValue,
) -> Option<Fault>
    ensures { result ≡ first_from first (held_rows heads.now of (FormOf.Enum (enum_members (form heads.now of))) value.now) }
{
    match value {
        ConditionValue::Truth { place, value: _ } => {
            with_fault(first, *place, FaultCode::WrongKind, true)
        }
        ConditionValue::Name(name) => {
            let is_unknown = is_no_member(heads, of, name.text.as_str());
            with_fault(first, name.place, FaultCode::Unknown, is_unknown)
        }
        ConditionValue::EnumName { of: owner, member } => {
            let is_wrong = is_other_type(heads, of, owner);
            let is_unknown = is_no_member(heads, of, member.text.as_str());
            let first = with_fault(first, owner.place, FaultCode::WrongKind, is_wrong);
            with_fault(first, member.place, FaultCode::Unknown, is_unknown)
        }
    }
}

/// Faults of the value of a condition on a field of truth values.
fn with_truth(
    first: Option<Fault>,
    heads: &Heads,
    of: TypeId,
    value: &ConditionValue,
) -> Option<Fault>
    ensures { result ≡ first_from first (held_rows heads.now of FormOf.Truth value.now) }
{
    match value {
        ConditionValue::Truth { place: _, value: _ } => first,
        ConditionValue::Name(name) => with_fault(first, name.place, FaultCode::WrongKind, true),
        ConditionValue::EnumName {
            of: owner,
            member: _,
        } => with_fault(first, owner.place, FaultCode::WrongKind, true),
    }
}

/// Faults of the value of a condition on a field of type `of`.
fn with_value(
    first: Option<Fault>,
    heads: &Heads,
    of: TypeId,
    value: &ConditionValue,
) -> Option<Fault>
    ensures { result ≡ first_from first (held_rows heads.now of (form heads.now of) value.now) }
{
    match heads.form(of) {
        Form::Truth => with_truth(first, heads, of, value),
        Form::Enum(_) => with_enum_value(first, heads, of, value),
        Form::Int
        | Form::Uint
        | Form::Float
        | Form::Chars
        | Form::Physical(_)
        | Form::Compound(_) => first,
    }
}

/// Faults of a condition on a field of type `of`.
pub fn with_decided(
    first: Option<Fault>,
    heads: &Heads,
    of: TypeId,
    condition: &HeirCondition,
    field: &FieldDecl,
) -> Option<Fault>
    ensures { result ≡ first_from first (row condition.now.field.place FaultCode.WrongKind (not (decides (form heads.now of)) || is_some field.now.list) ∷ held_rows heads.now of (form heads.now of) condition.now.value) }
{
    let is_wrong = !can_decide(heads.form(of)) || field.list.is_some();
    let first = with_fault(first, condition.field.place, FaultCode::WrongKind, is_wrong);
    with_value(first, heads, of, &condition.value)
}
