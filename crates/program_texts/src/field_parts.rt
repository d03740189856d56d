//! What fields hold.

ghost use Rattle.std.specs.Prelude.{◌≡◌, map, option_map, IfOk};
ghost use Rattle.dsl_tree.specs.Views.{expr_tree, field_tree};
ghost use Rattle.program_calls.specs.type_heads.Members.{items_in, list_length as length_of};
ghost use Rattle.program_calls.specs.type_heads.Table.{form};
ghost use Rattle.program_calls.specs.composition.Ranges.{range_of as range_in};
ghost use Rattle.program_texts.specs.Ranges.{listed_items, range_by, seen_exprs};

use dsl_tree::{Expr, FieldDecl};
use osc_base::Row;
use program_calls::{TypeId, TypeKind, Types, ValueRange};
use std::alloc::{AllocError, Global};

/// The greatest magnitude of what a field holds.
const GREATEST_VALUE: i64 = 1_000_000_000;

/// The items of a list.
pub fn list_items(expr: &Expr) -> Option<&[Expr]>
    ensures { option_map seen_exprs result ≡ listed_items (expr_tree expr.now) }
{
    match expr {
        Expr::Listed { items, .. } => Some(items.as_slice()),
        _ => None,
    }
}

/// How many items a list has. More of them than a `u32` counts are out of memory.
fn item_count(initial: &Option<Expr>) -> Result<u32, AllocError>
    ensures { IfOk result (λ n. n ≡ items_in (option_map expr_tree initial.now)) }
{
    let Some(initial) = initial else {
        return Ok(0);
    };
    match list_items(initial) {
        Some(items) => u32::try_from(items.len()).ok().ok_or(AllocError),
        None => Ok(0),
    }
}

/// The number of elements of a list field. More of them than a `u32` counts are out of memory.
pub fn list_length(field: &FieldDecl) -> Result<Option<u32>, AllocError>
    ensures { IfOk result (λ n. n ≡ length_of (field_tree field.now)) }
{
    match field.list {
        Some(_) => Ok(Some(item_count(&field.initial)?)),
        None => Ok(None),
    }
}

fn copy_numbers(alloc: Global, numbers: &[i64]) -> Result<Row<i64>, AllocError>
    ensures { IfOk result (λ r. r ≡ numbers.now) }
{
    let mut copies = Row::new(alloc);
    for number in numbers {
        copies.push(*number)?;
    }
    Ok(copies)
}

/// What a field of a type of that kind may hold, given the numbers of an enum.
fn range_by_kind(
    alloc: Global,
    kind: TypeKind,
    numbers: &[i64],
) -> Result<Option<ValueRange>, AllocError>
    ensures { IfOk result (λ r. r ≡ range_by kind numbers.now) }
{
    match kind {
        TypeKind::Int | TypeKind::Float | TypeKind::Physical(_) => Ok(Some(ValueRange::Between {
            low: -GREATEST_VALUE,
            high: GREATEST_VALUE,
        })),
        TypeKind::Uint => Ok(Some(ValueRange::Between {
            low: 0,
            high: GREATEST_VALUE,
        })),
        TypeKind::Bool => Ok(Some(ValueRange::Between { low: 0, high: 1 })),
        TypeKind::Chars => Ok(Some(ValueRange::Chars)),
        TypeKind::Enum => Ok(Some(ValueRange::Among {
            numbers: copy_numbers(alloc, numbers)?,
        })),
        TypeKind::Struct | TypeKind::Actor | TypeKind::Action | TypeKind::Scenario => Ok(None),
    }
}

/// What a field of a type may hold. `None` if the type has members.
pub fn range_of(alloc: Global, types: &Types, of: TypeId) -> Result<Option<ValueRange>, AllocError>
    ensures { IfOk result (λ r. r ≡ range_in (form types.now.table.heads of)) }
{
    let range = range_by_kind(alloc, types.kind(of), types.numbers(of))?;
    Ok(range)
}
