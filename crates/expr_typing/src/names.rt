//! What names mean: fields, labels, durations and members of enums.

ghost use Rattle.std.specs.Prelude.{◌≡◌, [], false, true, option_copied, option_map, IfOk};
ghost use Rattle.std.specs.Option.{option_map_or};
ghost use Rattle.dsl_tree.specs.osc_base.Number.{whole};
ghost use Rattle.dsl_tree.specs.osc_base.Paths.{root, then_name};
ghost use Rattle.expr_nodes.specs.type_heads.Table.{enums_with, form, is_behaviour as of_behaviour, enum_number};
ghost use Rattle.expr_nodes.specs.type_heads.Shown.{kind_form};
ghost use Rattle.expr_nodes.specs.Kinds as Kinds;
ghost use Rattle.expr_nodes.specs.Typed as Nodes;
ghost use Rattle.expr_nodes.specs.Sizes.{info_at, constant_size};
ghost use Rattle.expr_nodes.specs.Names.{is_duration as named_duration, duration_at as duration_read, label_at as label_node, label_named, member_meant as member_found, member_at as member_node};
ghost use Rattle.expr_nodes.specs.Seen.{seen};
ghost use Rattle.expr_nodes.specs.SeenNames.{seen_label, seen_scope};
ghost use Rattle.expr_typing.specs.Meanings.{seen_meaning};

use crate::fields::with_name;
use dsl_tree::Ident;
use expr_nodes::{
    Boxed, EnumHit, Exponents, Fraction, Info, Label, Path, Place, Row, Scope, Size, Text, TypeId,
    TypeKind, Typed, Types, ValueKind,
};
use std::alloc::{AllocError, Global};

/// The kind of a duration.
const SECONDS: Exponents = Exponents {
    kg: 0,
    m: 0,
    s: 1,
    a: 0,
    k: 0,
    mol: 0,
    cd: 0,
    rad: 0,
};

/// What a name means: nothing, a member of several enums, or something, which may have no kind.
#[derive(Drop)]
pub(crate) enum Meaning {
    Nothing,
    Several,
    Something(Option<Boxed<Typed>>),
}

/// The name is `duration`.
pub(crate) fn is_duration(name: &str) -> bool
    ensures { result ≡ named_duration name.now }
{
    name == "duration"
}

/// The type is an action or a scenario.
pub(crate) fn is_behaviour(types: &Types, of: TypeId) -> bool
    ensures { result ≡ of_behaviour (form types.now.table.heads of) }
{
    is_behaviour_kind(types.kind(of))
}

fn is_behaviour_kind(kind: TypeKind) -> bool
    ensures { result ≡ of_behaviour (kind_form kind) }
{
    match kind {
        TypeKind::Action | TypeKind::Scenario => true,
        TypeKind::Int
        | TypeKind::Uint
        | TypeKind::Float
        | TypeKind::Bool
        | TypeKind::Chars
        | TypeKind::Physical(_)
        | TypeKind::Enum
        | TypeKind::Struct
        | TypeKind::Actor => false,
    }
}

/// A duration that is read at a path.
pub(crate) fn duration_at(place: Place, path: Path) -> Typed
    ensures { seen result ≡ duration_read place path }
{
    let info = Info {
        place,
        kind: ValueKind::Number(SECONDS),
        size: Size::duration(),
    };
    Typed::Read {
        info,
        path,
        per: 1000,
    }
}

/// The path of one name.
pub(crate) fn path_of(alloc: Global, name: &str) -> Result<Path, AllocError>
    ensures { IfOk result (λ p. p ≡ then_name root name.now) }
{
    let name = Text::copy(alloc, name)?;
    with_name(
        Path {
            steps: Row::new(alloc),
        },
        name,
    )
}

/// A member of the enum, with that number.
pub(crate) fn member_at(place: Place, of: TypeId, number: i64) -> Typed
    ensures { seen result ≡ Nodes.Constant (info_at place (Kinds.ValueKind.Member of) (constant_size (whole number))) (whole number) }
{
    let number = Fraction {
        num: i128::from(number),
        den: 1,
    };
    let info = Info {
        place,
        kind: ValueKind::Member(of),
        size: Size::constant(&number),
    };
    Typed::Constant { info, number }
}

/// The member of that name of the enum.
fn member_of(
    alloc: Global,
    types: &Types,
    of: TypeId,
    name: &Ident,
) -> Result<Option<Boxed<Typed>>, AllocError>
    ensures { IfOk result (λ m. option_map seen m ≡ option_map (member_node name.now.place of) (enum_number types.now.table.heads of name.now.text)) }
{
    match types.enum_number(of, name.text.as_str()) {
        Some(number) => Ok(Some(Boxed::new(alloc, member_at(name.place, of, number))?)),
        None => Ok(None),
    }
}

/// A bare name of a member: one enum alone has it.
pub(crate) fn member_meant(
    alloc: Global,
    types: &Types,
    name: &Ident,
) -> Result<Meaning, AllocError>
    ensures { IfOk result (λ m. seen_meaning m ≡ member_found types.now.table name.now (enums_with types.now.table.heads name.now.text)) }
{
    match types.enum_with(name.text.as_str()) {
        EnumHit::Absent => Ok(Meaning::Nothing),
        EnumHit::Several => Ok(Meaning::Several),
        EnumHit::One(of) => Ok(Meaning::Something(member_of(alloc, types, of, name)?)),
    }
}

/// The first label of that name.
pub(crate) fn label_of<'a>(scope: &Scope<'a>, name: &str) -> Option<&'a Label>
    ensures { option_map (seen_label scope.now.way.now) (option_copied result) ≡ label_named (seen_scope scope.now) name.now }
{
    match scope.labels {
        Some(table) => table.named(name),
        None => None,
    }
}

/// Whether a label has the name.
pub fn has_label(scope: &Scope<'_>, name: &str) -> bool
    ensures { result ≡ option_map_or (λ l. true) (label_named (seen_scope scope.now) name.now) false }
{
    label_of(scope, name).is_some()
}

/// A label stands for its whole phase.
pub(crate) fn label_at(
    alloc: Global,
    place: Place,
    label: &Label,
) -> Result<Boxed<Typed>, AllocError>
    ensures { IfOk result (λ t. seen t ≡ label_node place (seen_label [] label.now)) }
{
    let info = Info {
        place,
        kind: ValueKind::Phase(label.made),
        size: Size::unit(),
    };
    let path = label.path.copy(alloc)?;
    Boxed::new(alloc, Typed::Whole { info, path })
}
