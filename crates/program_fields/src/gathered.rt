//! The fields that members declare, and the `do` that a member is.

ghost use Rattle.std.specs.Prelude.{◌≡◌, ◌++◌, map, option_map, IfOk, OnOk};
ghost use Rattle.dsl_tree.specs.Views.{field_tree};
ghost use Rattle.type_heads.specs.Members.{do_declared, fields_among, fields_declared};
ghost use Rattle.type_members.specs.Listed.{seen_listed};
ghost use Rattle.type_members.specs.Shared.{under_inside};
ghost use Rattle.program_fields.specs.Parts.{dos_from, dos_in, field_with, is_do as is_a_do};
ghost use Rattle.program_fields.specs.SeenFields.{fields_named, seen_do, seen_field};

use crate::fields::{TypeDo, TypeField};
use dsl_tree::{FieldDecl, Ident, Member};
use std::alloc::{AllocError, Global};
use type_heads::TypeId;
use type_members::ListedMember;

/// Puts a field for each name of a declaration at the end.
fn push_names<'a>(
    into: &mut Vec<TypeField<'a>>,
    decl: &'a FieldDecl,
    holder: u32,
    under: &'a [TypeId],
) -> Result<(), AllocError>
    ensures { OnOk result (map seen_field into.new.items ≡ map seen_field into.old.items ++ fields_named (field_tree decl.entry.now) holder under.entry.now decl.entry.now.names) }
{
    for name in decl.names.as_slice() {
        into.push(TypeField {
            name,
            decl,
            holder,
            under,
        })?;
    }
    Ok(())
}

/// Appends the fields that a member declares. `inside` is how many of the outermost conditions are met already.
fn push_fields<'a>(
    into: &mut Vec<TypeField<'a>>,
    listed: &'a ListedMember<'a>,
    inside: usize,
) -> Result<(), AllocError>
    ensures { OnOk result (map seen_field into.new.items ≡ map seen_field into.old.items ++ fields_declared (under_inside inside (seen_listed listed.entry.now)) (seen_listed listed.entry.now).written.member) }
{
    match listed.written.member {
        Member::Field(decl) => {
            let under = listed.under_inside(inside);
            push_names(into, decl, listed.holder.0, under)
        }
        Member::Rule(_) | Member::Do { .. } => Ok(()),
    }
}

/// Appends the fields that members declare, name by name. `inside` is how many of the outermost conditions are met already.
pub(crate) fn push_all<'a>(
    into: &mut Vec<TypeField<'a>>,
    members: &'a [ListedMember<'a>],
    inside: usize,
) -> Result<(), AllocError>
    ensures { OnOk result (map seen_field into.new.items ≡ map seen_field into.old.items ++ fields_among (map (under_inside inside) (map seen_listed members.entry.now))) }
{
    for listed in members {
        push_fields(into, listed, inside)?;
    }
    Ok(())
}

/// The field of that name, if the member declares fields. `inside` is how many of the outermost conditions are met already.
pub(crate) fn field_of<'a>(
    listed: &'a ListedMember<'a>,
    name: &'a Ident,
    inside: usize,
) -> Option<TypeField<'a>>
    ensures { option_map seen_field result ≡ field_with name.entry.now (under_inside inside (seen_listed listed.entry.now)) (seen_listed listed.entry.now).written.member }
{
    match listed.written.member {
        Member::Field(decl) => Some(TypeField {
            name,
            decl,
            holder: listed.holder.0,
            under: listed.under_inside(inside),
        }),
        Member::Rule(_) | Member::Do { .. } => None,
    }
}

/// The `do` that a member is. `inside` is how many of the outermost conditions are met already.
pub(crate) fn do_of<'a>(listed: &'a ListedMember<'a>, inside: usize) -> Option<TypeDo<'a>>
    ensures { option_map seen_do result ≡ do_declared (under_inside inside (seen_listed listed.entry.now)) (seen_listed listed.entry.now).written.member }
{
    match listed.written.member {
        Member::Do { place, phase } => Some(TypeDo {
            holder: listed.holder.0,
            place: *place,
            phase,
            under: listed.under_inside(inside),
        }),
        Member::Field(_) | Member::Rule(_) => None,
    }
}

/// Whether a member is a `do`.
fn is_do(listed: &ListedMember<'_>) -> bool
    ensures { result ≡ is_a_do (seen_listed listed.now) }
{
    match listed.written.member {
        Member::Do { .. } => true,
        Member::Field(_) | Member::Rule(_) => false,
    }
}

/// Puts the place of a member at the end, if the member is a `do`.
fn push_do(into: &mut Vec<usize>, listed: &ListedMember<'_>, place: usize) -> Result<(), AllocError>
    ensures { OnOk result (into.new.items ≡ into.old.items ++ dos_in place (seen_listed listed.now)) }
{
    if is_do(listed) {
        into.push(place)?;
    }
    Ok(())
}

/// The place of each `do` among members, counted from 0.
pub(crate) fn do_places(
    alloc: Global,
    members: &[ListedMember<'_>],
) -> Result<Vec<usize>, AllocError>
    ensures { IfOk result (λ dos. dos.items ≡ dos_from 0 (map seen_listed members.now)) }
{
    let mut dos = Vec::new(alloc);
    let mut place: usize = 0;
    for listed in members {
        push_do(&mut dos, listed, place)?;
        place += 1;
    }
    Ok(dos)
}
