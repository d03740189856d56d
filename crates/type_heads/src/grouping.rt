//! The extensions of each type.

ghost use Rattle.std.specs.Prelude.{◌≡◌, ℕ, List, Some, [], length, replicate, option_copied, IfOk, OnOk};
ghost use Rattle.name_scope.specs.dsl_tree.Views.{declaration_tree};
ghost use Rattle.type_heads.specs.Table.{TypeHead, named};
ghost use Rattle.type_heads.specs.DeclaredTypes.{meant};
ghost use Rattle.type_heads.specs.Extending.{type_extended};
ghost use Rattle.type_heads.specs.Grouped.{AreGrouped, IsIndex, put_at};

use crate::TypeId;
use crate::names::NameIndex;
use crate::placed::PlacedDecl;
use name_scope::dsl_tree::{Declaration, QName};
use std::alloc::{AllocError, Global};
use units_si::osc_base::Row;

/// The first type of that name. Only a behaviour that is asked for with its owner has one.
pub fn type_named(names: &NameIndex, owner: Option<&str>, name: &str) -> Option<TypeId>
    ensures { (heads : List TypeHead) → IsIndex names.now heads → result ≡ named heads (option_copied owner.entry) name.now }
{
    let place = names.get(owner, name)?;
    Some(TypeId(place))
}

/// The type that a name with or without an owner means.
pub fn type_meant(names: &NameIndex, name: &QName) -> Option<TypeId>
    ensures { (heads : List TypeHead) → IsIndex names.now heads → result ≡ meant heads name.now }
{
    match &name.second {
        None => type_named(names, None, name.first.text.as_str()),
        Some(second) => type_named(names, Some(name.first.text.as_str()), second.text.as_str()),
    }
}

/// The type that a declaration extends.
fn type_of_extension(names: &NameIndex, declaration: &Declaration) -> Option<TypeId>
    ensures { (heads : List TypeHead) → IsIndex names.now heads → result ≡ type_extended heads (declaration_tree declaration.now) }
{
    match declaration {
        Declaration::MemberExtension(decl) => type_meant(names, &decl.name),
        Declaration::EnumExtension(decl) => type_meant(names, &decl.name),
        Declaration::Physical(_)
        | Declaration::Unit(_)
        | Declaration::Enum(_)
        | Declaration::Compound(_) => None,
    }
}

/// Puts a declaration into the row of that number, if there is one.
fn put<'a>(
    added: &mut Vec<Row<PlacedDecl<'a>>>,
    of: TypeId,
    placed: PlacedDecl<'a>,
) -> Result<(), AllocError>
    ensures put { OnOk result (added.new.items ≡ put_at (Some of) placed.entry added.old.items) }
    ensures count { OnOk result (length added.new.items ≡ length added.old.items) }
{
    let at = of.0 as usize;
    if at < added.len() {
        let row = &mut added[at];
        row.push(placed)?;
    }
    Ok(())
}

/// Puts a declaration into the row of the type that it extends, if it is an extension.
fn put_extension<'a>(
    added: &mut Vec<Row<PlacedDecl<'a>>>,
    names: &NameIndex,
    placed: PlacedDecl<'a>,
) -> Result<(), AllocError>
    ensures count { OnOk result (length added.new.items ≡ length added.old.items) }
    ensures put { OnOk result ((heads : List TypeHead) → IsIndex names.now heads → added.new.items ≡ put_at (type_extended heads (declaration_tree placed.entry.declaration.now)) placed.entry added.old.items) }
{
    match type_of_extension(names, placed.declaration) {
        Some(of) => put(added, of, placed),
        None => Ok(()),
    }
}

/// Empty rows, as many as there are types.
fn empty_rows<'a>(alloc: Global, count: usize) -> Result<Vec<Row<PlacedDecl<'a>>>, AllocError>
    ensures { IfOk result (λ rows. rows.items ≡ replicate count []) }
{
    let mut rows = Vec::new(alloc);
    for _ in 0..count {
        rows.push(Row::new(alloc))?;
    }
    Ok(rows)
}

/// The extensions of each of so many types.
pub fn extensions_of<'a>(
    alloc: Global,
    names: &NameIndex,
    placed: &[PlacedDecl<'a>],
    count: usize,
) -> Result<Vec<Row<PlacedDecl<'a>>>, AllocError>
    ensures count { IfOk result (λ added. length added.items ≡ count) }
    ensures grouped { IfOk result (λ added. (heads : List TypeHead) → IsIndex names.now heads → AreGrouped heads count placed.now added.items) }
{
    let mut added = empty_rows(alloc, count)?;
    for declaration in placed {
        put_extension(&mut added, names, *declaration)?;
    }
    Ok(added)
}
