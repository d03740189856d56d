//! The fields that members declare.

ghost use Rattle.std.specs.Prelude.{◌≡◌, ◌++◌, Some, option_map, IfOk, OnOk};
ghost use Rattle.dsl_tree.specs.Views.{expr_tree, field_tree};
ghost use Rattle.type_members.specs.type_heads.Members.{items_in, list_length as length_of};
ghost use Rattle.type_members.specs.Listed.{seen_listed};
ghost use Rattle.type_tables.specs.Entries.{entries, field_entries, member_entries};

use dsl_tree::{Expr, FieldDecl, Ident, Member};
use std::alloc::{AllocError, Global};
use type_members::{FieldEntry, FieldType, Heads, ListedMember, Text, TypeId};

/// The number of elements of a list constructor, and 0 of another expression. More of them than a `u32` counts are
/// out of memory.
fn item_count(initial: &Expr) -> Result<u32, AllocError>
    ensures { IfOk result (λ n. n ≡ items_in (Some (expr_tree initial.now))) }
{
    match initial {
        Expr::Listed { place: _, items } => counted(items.as_slice().len()),
        _ => Ok(0),
    }
}

fn counted(len: usize) -> Result<u32, AllocError>
    ensures { IfOk result (λ n. n ≡ len) }
{
    match u32::try_from(len) {
        Ok(count) => Ok(count),
        Err(_) => Err(AllocError),
    }
}

fn initial_count(initial: &Option<Expr>) -> Result<u32, AllocError>
    ensures { IfOk result (λ n. n ≡ items_in (option_map expr_tree initial.now)) }
{
    match initial {
        Some(initial) => item_count(initial),
        None => Ok(0),
    }
}

/// The number of elements, if the field is a list.
fn list_length(field: &FieldDecl) -> Result<Option<u32>, AllocError>
    ensures { IfOk result (λ n. n ≡ length_of (field_tree field.now)) }
{
    if field.list.is_none() {
        return Ok(None);
    }
    Ok(Some(initial_count(&field.initial)?))
}

/// Puts a field of each name at the end.
fn push_names(
    alloc: Global,
    into: &mut Vec<FieldEntry>,
    of: TypeId,
    length: Option<u32>,
    names: &[Ident],
) -> Result<(), AllocError>
    ensures { OnOk result (into.new.items ≡ into.old.items ++ entries of length names.now) }
{
    for name in names {
        let text = Text::copy(alloc, name.text.as_str())?;
        into.push(FieldEntry::new(text, FieldType { of, length }))?;
    }
    Ok(())
}

/// Puts the fields of a declaration at the end, if its type is declared.
fn push_field(
    alloc: Global,
    into: &mut Vec<FieldEntry>,
    heads: &Heads,
    field: &FieldDecl,
) -> Result<(), AllocError>
    ensures { OnOk result (into.new.items ≡ into.old.items ++ field_entries heads.now (field_tree field.now)) }
{
    let Some(of) = heads.named(None, field.of.text.as_str()) else {
        return Ok(());
    };
    let length = list_length(field)?;
    push_names(alloc, into, of, length, field.names.as_slice())
}

/// Puts the fields of a member at the end.
pub(crate) fn push_member(
    alloc: Global,
    into: &mut Vec<FieldEntry>,
    heads: &Heads,
    member: &ListedMember<'_>,
) -> Result<(), AllocError>
    ensures { OnOk result (into.new.items ≡ into.old.items ++ member_entries heads.now (seen_listed member.now)) }
{
    match member.written.member {
        Member::Field(field) => {
            push_field(alloc, into, heads, field)?;
            Ok(())
        }
        Member::Rule(_) | Member::Do { place: _, phase: _ } => Ok(()),
    }
}
