//! `it`, `actor`, and members of enums with the enum before them.

ghost use Rattle.std.specs.Prelude.{◌≡◌, false, is_none, option_map, IfOk};
ghost use Rattle.std.specs.Option.{option_map_or};
ghost use Rattle.dsl_tree.specs.osc_base.FaultRows.{first_fault};
ghost use Rattle.expr_nodes.specs.type_heads.Shown.{kind_form};
ghost use Rattle.expr_nodes.specs.type_heads.Table.{enum_number, form, is_enum as of_enum};
ghost use Rattle.expr_nodes.specs.Names.{it_rows, it_typed, it_at as it_node, actor_rows, actor_typed, member_at as member_node, enum_named as named_enum, enum_name_rows, enum_name_typed};
ghost use Rattle.expr_nodes.specs.Seen.{seen, seen_part};
ghost use Rattle.expr_nodes.specs.SeenNames.{seen_it, seen_scope};

use crate::fields::object_at;
use crate::held::held_at;
use crate::names::{member_at, path_of};
use dsl_tree::Ident;
use dsl_tree::osc_base::FaultCode;
use expr_nodes::{
    Boxed, Checked, Fault, It, Place, Scope, TypeId, TypeKind, Typed, Types, ValueKind,
};
use std::alloc::{AllocError, Global};
use typed_parts::{fault_if, least};

/// What `it` stands for, at its path.
fn it_at(
    alloc: Global,
    types: &Types,
    place: Place,
    it: It,
) -> Result<Option<Boxed<Typed>>, AllocError>
    ensures { IfOk result (λ t. seen_part t ≡ it_node types.now.table place (seen_it it)) }
{
    match it {
        It::Of(field) => {
            let path = path_of(alloc, "it")?;
            Ok(Some(held_at(alloc, types, place, path, field)?))
        }
        It::Unresolved => Ok(None),
    }
}

/// `it`.
pub fn it(
    alloc: Global,
    types: &Types,
    scope: &Scope<'_>,
    place: Place,
) -> Result<Checked, AllocError>
    ensures fault { IfOk result (λ c. c.fault ≡ first_fault (it_rows (seen_scope scope.now) place)) }
    ensures typed { IfOk result (λ c. seen_part c.typed ≡ it_typed types.now.table (seen_scope scope.now) place) }
{
    match scope.it {
        Some(it) => Ok(Checked {
            fault: None,
            typed: it_at(alloc, types, place, it)?,
        }),
        None => Ok(Checked {
            fault: fault_if(place, FaultCode::Unknown, true),
            typed: None,
        }),
    }
}

/// `actor`.
pub fn actor(
    alloc: Global,
    types: &Types,
    scope: &Scope<'_>,
    place: Place,
) -> Result<Checked, AllocError>
    ensures fault { IfOk result (λ c. c.fault ≡ first_fault (actor_rows types.now.table (seen_scope scope.now) place)) }
    ensures typed { IfOk result (λ c. seen_part c.typed ≡ actor_typed types.now.table (seen_scope scope.now) place) }
{
    match types.owner(scope.holder) {
        Some(of) => {
            let path = path_of(alloc, "actor")?;
            let typed = Boxed::new(alloc, object_at(place, path, ValueKind::Object(of)))?;
            Ok(Checked {
                fault: None,
                typed: Some(typed),
            })
        }
        None => Ok(Checked {
            fault: fault_if(place, FaultCode::Unknown, true),
            typed: None,
        }),
    }
}

fn is_enum_kind(kind: TypeKind) -> bool
    ensures { result ≡ of_enum (kind_form kind) }
{
    match kind {
        TypeKind::Enum => true,
        TypeKind::Int
        | TypeKind::Uint
        | TypeKind::Float
        | TypeKind::Bool
        | TypeKind::Chars
        | TypeKind::Physical(_)
        | TypeKind::Struct
        | TypeKind::Actor
        | TypeKind::Action
        | TypeKind::Scenario => false,
    }
}

fn is_enum(types: &Types, of: TypeId) -> bool
    ensures { result ≡ of_enum (form types.now.table.heads of) }
{
    is_enum_kind(types.kind(of))
}

/// The enum of that name.
fn enum_named(types: &Types, of: &Ident) -> Option<TypeId>
    ensures { result ≡ named_enum types.now.table of.now }
{
    match types.named(None, of.text.as_str()) {
        Some(found) => {
            if is_enum(types, found) {
                Some(found)
            } else {
                None
            }
        }
        None => None,
    }
}

/// The enum hasn't the member.
fn lacks(types: &Types, of: Option<TypeId>, member: &Ident) -> bool
    ensures { result ≡ option_map_or (λ e. is_none (enum_number types.now.table.heads e member.now.text)) of false }
{
    match of {
        Some(of) => types.enum_number(of, member.text.as_str()).is_none(),
        None => false,
    }
}

fn enum_fault(types: &Types, of: &Ident, member: &Ident) -> Option<Fault>
    ensures { result ≡ first_fault (enum_name_rows types.now.table of.now member.now) }
{
    let found = enum_named(types, of);
    let unknown = fault_if(of.place, FaultCode::Unknown, found.is_none());
    let lacking = fault_if(
        member.place,
        FaultCode::Unknown,
        lacks(types, found, member),
    );
    least(unknown, lacking)
}

/// The member of that name of an enum.
fn enum_member(
    alloc: Global,
    types: &Types,
    place: Place,
    of: TypeId,
    name: &str,
) -> Result<Option<Boxed<Typed>>, AllocError>
    ensures { IfOk result (λ m. option_map seen m ≡ option_map (member_node place of) (enum_number types.now.table.heads of name.now)) }
{
    match types.enum_number(of, name) {
        Some(number) => Ok(Some(Boxed::new(alloc, member_at(place, of, number))?)),
        None => Ok(None),
    }
}

fn enum_typed(
    alloc: Global,
    types: &Types,
    of: &Ident,
    member: &Ident,
) -> Result<Option<Boxed<Typed>>, AllocError>
    ensures { IfOk result (λ m. seen_part m ≡ enum_name_typed types.now.table of.now member.now) }
{
    match enum_named(types, of) {
        Some(found) => enum_member(alloc, types, of.place, found, member.text.as_str()),
        None => Ok(None),
    }
}

/// A member with its enum before it.
pub fn enum_name(
    alloc: Global,
    types: &Types,
    of: &Ident,
    member: &Ident,
) -> Result<Checked, AllocError>
    ensures fault { IfOk result (λ c. c.fault ≡ first_fault (enum_name_rows types.now.table of.now member.now)) }
    ensures typed { IfOk result (λ c. seen_part c.typed ≡ enum_name_typed types.now.table of.now member.now) }
{
    let typed = enum_typed(alloc, types, of, member)?;
    Ok(Checked {
        fault: enum_fault(types, of, member),
        typed,
    })
}
