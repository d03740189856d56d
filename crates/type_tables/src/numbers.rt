//! The numbers of enums.

ghost use Rattle.std.specs.Prelude.{◌≡◌, map, pos, IfOk};
ghost use Rattle.type_members.specs.type_heads.Form.{EnumMember};
ghost use Rattle.type_members.specs.type_heads.Bounds.{numbers_of};
ghost use Rattle.type_members.specs.type_heads.Seen.{seen_form};
ghost use Rattle.type_members.specs.type_heads.Table.{TypeHead, enum_members};

use std::alloc::{AllocError, Global};
use type_members::{EnumEntry, Form, Heads, Row, TypeId};

/// The numbers of members, in their order.
fn values(alloc: Global, members: &[EnumEntry]) -> Result<Vec<i64>, AllocError>
    ensures { IfOk result (λ values. values.items ≡ map (λ (m : EnumMember). pos m.number) members.now) }
{
    let mut values = Vec::new(alloc);
    for member in members {
        values.push(member.value())?;
    }
    Ok(values)
}

/// The numbers of members, ascending.
fn ascending(alloc: Global, members: &[EnumEntry]) -> Result<Row<i64>, AllocError>
    ensures { IfOk result (λ numbers. numbers ≡ numbers_of members.now) }
{
    let mut numbers = values(alloc, members)?;
    numbers.sort()?;
    Ok(Row::of(numbers))
}

/// The numbers of an enum, ascending, and none of other types.
fn numbers(alloc: Global, form: Form<'_>) -> Result<Row<i64>, AllocError>
    ensures { IfOk result (λ numbers. numbers ≡ numbers_of (enum_members (seen_form form.entry))) }
{
    match form {
        Form::Enum(members) => ascending(alloc, members),
        Form::Int
        | Form::Uint
        | Form::Float
        | Form::Truth
        | Form::Chars
        | Form::Physical(_)
        | Form::Compound(_) => Ok(Row::new(alloc)),
    }
}

/// The numbers of each enum, ascending, and none of other types.
pub fn all_numbers(alloc: Global, heads: &Heads) -> Result<Vec<Row<i64>>, AllocError>
    ensures { IfOk result (λ all. all.items ≡ map (λ (h : TypeHead). numbers_of (enum_members h.form)) heads.now) }
{
    let mut all = Vec::new(alloc);
    for number in 0..heads.count() {
        all.push(numbers(alloc, heads.form(TypeId(number)))?)?;
    }
    Ok(all)
}
