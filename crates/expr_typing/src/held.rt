//! What is held at paths: single values, objects and lists.

ghost use Rattle.std.specs.Prelude.{◌≡◌, Some, map, IfOk};
ghost use Rattle.expr_nodes.specs.type_heads.Shown.{kind_form};
ghost use Rattle.expr_nodes.specs.Typed as Nodes;
ghost use Rattle.expr_nodes.specs.Typed.{row_of};
ghost use Rattle.expr_nodes.specs.Names.{list_field as field_list, held_at as field_held, elements_from};
ghost use Rattle.expr_nodes.specs.Seen.{seen, seen_info};
ghost use Rattle.expr_nodes.specs.SeenNames.{list_in};

use crate::fields::{element, kind_value, per_of, single};
use expr_nodes::{Boxed, FieldType, Info, Path, Place, Row, Size, TypeId, TypeKind, Typed, Types};
use std::alloc::{AllocError, Global};

/// The elements of a list field. `info` is what each holds of itself.
fn elements(
    alloc: Global,
    info: &Info,
    path: &Path,
    count: u32,
    per: u32,
) -> Result<Row<Typed>, AllocError>
    ensures { IfOk result (λ ts. row_of (map seen ts) ≡ elements_from 0 count (λ p. Nodes.Read (seen_info info.now) p per) path.now) }
{
    let mut items = Row::new(alloc);
    for number in 0..count {
        items.push(element(alloc, info, path, number, per)?)?;
    }
    Ok(items)
}

/// A list.
pub(crate) fn listed(
    alloc: Global,
    info: Info,
    is_field: bool,
    items: Row<Typed>,
) -> Result<Boxed<Typed>, AllocError>
    ensures { IfOk result (λ t. seen t ≡ Nodes.Listed (seen_info info) is_field (row_of (map seen items))) }
{
    let list = Typed::Listed {
        info,
        is_field,
        items,
    };
    Boxed::new(alloc, list)
}

fn list_of(
    alloc: Global,
    place: Place,
    path: &Path,
    kind: TypeKind,
    of: TypeId,
    count: u32,
) -> Result<Boxed<Typed>, AllocError>
    ensures { IfOk result (λ t. Some (seen t) ≡ list_in place path.now of (kind_form kind) count) }
{
    let per = per_of(kind);
    let held = Info {
        place,
        kind: kind_value(kind, of),
        size: Size::field(per),
    };
    let items = elements(alloc, &held, path, count, per)?;
    let info = Info {
        place,
        kind: kind_value(kind, of),
        size: Size::unit(),
    };
    listed(alloc, info, true, items)
}

/// A list field with so many elements.
fn list_field(
    alloc: Global,
    types: &Types,
    place: Place,
    path: &Path,
    of: TypeId,
    count: u32,
) -> Result<Boxed<Typed>, AllocError>
    ensures { IfOk result (λ t. Some (seen t) ≡ field_list types.now.table place path.now of count) }
{
    list_of(alloc, place, path, types.kind(of), of, count)
}

/// A field at a path: one value or object, or a list.
pub(crate) fn held_at(
    alloc: Global,
    types: &Types,
    place: Place,
    path: Path,
    field: FieldType,
) -> Result<Boxed<Typed>, AllocError>
    ensures { IfOk result (λ t. Some (seen t) ≡ field_held types.now.table place path field.of field.length) }
{
    match field.length {
        None => Boxed::new(alloc, single(types, place, path, field.of)),
        Some(count) => list_field(alloc, types, place, &path, field.of, count),
    }
}
