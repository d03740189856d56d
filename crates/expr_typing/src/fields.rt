//! What is read from fields.

ghost use Rattle.std.specs.Prelude.{◌≡◌, ◌<◌, Some, IfOk};
ghost use Rattle.dsl_tree.specs.osc_base.Paths.{then_name, then_index};
ghost use Rattle.expr_nodes.specs.type_heads.Shown.{kind_form};
ghost use Rattle.expr_nodes.specs.type_heads.Table.{has_members as of_compound};
ghost use Rattle.expr_nodes.specs.Kinds.{kind_of};
ghost use Rattle.expr_nodes.specs.Typed as Nodes;
ghost use Rattle.expr_nodes.specs.Sizes.{info_at, field_size, unit_size};
ghost use Rattle.expr_nodes.specs.Names.{per_of as counted_over, single as field_single};
ghost use Rattle.expr_nodes.specs.Seen.{seen, seen_info, seen_kind};
ghost use Rattle.expr_nodes.specs.SeenNames.{single_in};

use dsl_tree::osc_base::Step;
use expr_nodes::{Info, Path, Place, Size, Text, TypeId, TypeKind, Typed, Types, ValueKind};
use std::alloc::{AllocError, Global};
use typed_parts::NO_EXPONENTS;

/// The kind of what a field of the type holds.
pub(crate) fn kind_value(kind: TypeKind, of: TypeId) -> ValueKind
    ensures { Some (seen_kind result) ≡ kind_of of (kind_form kind) }
{
    match kind {
        TypeKind::Int | TypeKind::Uint | TypeKind::Float => ValueKind::Number(NO_EXPONENTS),
        TypeKind::Bool => ValueKind::Truth,
        TypeKind::Chars => ValueKind::Chars,
        TypeKind::Physical(exponents) => ValueKind::Number(exponents),
        TypeKind::Enum => ValueKind::Member(of),
        TypeKind::Struct | TypeKind::Actor | TypeKind::Action | TypeKind::Scenario => {
            ValueKind::Object(of)
        }
    }
}

/// What is held in a field is counted over 1000 or over 1.
pub(crate) fn per_of(kind: TypeKind) -> u32
    ensures per { result ≡ counted_over (kind_form kind) }
    ensures above { 0 < result }
{
    match kind {
        TypeKind::Float | TypeKind::Physical(_) => 1000,
        TypeKind::Int
        | TypeKind::Uint
        | TypeKind::Bool
        | TypeKind::Chars
        | TypeKind::Enum
        | TypeKind::Struct
        | TypeKind::Actor
        | TypeKind::Action
        | TypeKind::Scenario => 1,
    }
}

fn has_members(kind: TypeKind) -> bool
    ensures { result ≡ of_compound (kind_form kind) }
{
    match kind {
        TypeKind::Struct | TypeKind::Actor | TypeKind::Action | TypeKind::Scenario => true,
        TypeKind::Int
        | TypeKind::Uint
        | TypeKind::Float
        | TypeKind::Bool
        | TypeKind::Chars
        | TypeKind::Physical(_)
        | TypeKind::Enum => false,
    }
}

/// A value that is read.
fn read_at(place: Place, path: Path, kind: ValueKind, per: u32) -> Typed
    requires { 0 < per }
    ensures { seen result ≡ Nodes.Read (info_at place (seen_kind kind) (field_size per)) path per }
{
    let size = Size::field(per);
    let info = Info { place, kind, size };
    Typed::Read { info, path, per }
}

/// A whole object.
pub(crate) fn object_at(place: Place, path: Path, kind: ValueKind) -> Typed
    ensures { seen result ≡ Nodes.Whole (info_at place (seen_kind kind) unit_size) path }
{
    let size = Size::unit();
    let info = Info { place, kind, size };
    Typed::Whole { info, path }
}

fn value_at(place: Place, path: Path, kind: TypeKind, of: TypeId) -> Typed
    ensures { Some (seen result) ≡ single_in place path of (kind_form kind) }
{
    let value = kind_value(kind, of);
    if has_members(kind) {
        object_at(place, path, value)
    } else {
        read_at(place, path, value, per_of(kind))
    }
}

/// A field of one value or object.
pub(crate) fn single(types: &Types, place: Place, path: Path, of: TypeId) -> Typed
    ensures { Some (seen result) ≡ field_single types.now.table place path of }
{
    value_at(place, path, types.kind(of), of)
}

/// The path with a name more.
pub(crate) fn with_name(path: Path, name: Text) -> Result<Path, AllocError>
    ensures { IfOk result (λ p. p ≡ then_name path name) }
{
    let mut steps = path.steps;
    steps.push(Step::Name(name))?;
    Ok(Path { steps })
}

/// The path of an element of the list at a path.
fn with_index(alloc: Global, path: &Path, number: u32) -> Result<Path, AllocError>
    ensures { IfOk result (λ p. p ≡ then_index path.now number) }
{
    let mut steps = path.copy(alloc)?.steps;
    steps.push(Step::Index(number))?;
    Ok(Path { steps })
}

/// The element of that number of the list at a path.
pub(crate) fn element(
    alloc: Global,
    info: &Info,
    path: &Path,
    number: u32,
    per: u32,
) -> Result<Typed, AllocError>
    ensures { IfOk result (λ t. seen t ≡ Nodes.Read (seen_info info.now) (then_index path.now number) per) }
{
    Ok(Typed::Read {
        info: *info,
        path: with_index(alloc, path, number)?,
        per,
    })
}
