//! The faults of the names that all declarations use, and of the members of all enums.

ghost use Rattle.std.specs.Prelude.{◌≡◌, ◌++◌, ◌<◌, [], flat_map, length, map, IfOk};
ghost use Rattle.type_members.specs.osc_base.FaultRows.{first_fault, first_from};
ghost use Rattle.type_members.specs.dsl_tree.Views.{declaration_tree};
ghost use Rattle.type_members.specs.type_heads.Placing.{seen_type};
ghost use Rattle.heading_faults.specs.Trees.{trees};
ghost use Rattle.heading_faults.specs.ItemSets.{rows_of_type};
ghost use Rattle.heading_faults.specs.NameFaults.{rows_of_names};
ghost use Rattle.type_members.specs.type_heads.Gathered.{AreGathered, all_of, heads_of};
ghost use Rattle.type_members.specs.type_heads.DeclaredTypes.{all_declared};
ghost use Rattle.type_members.specs.type_heads.HeadingFaults.{declaration_rows, enum_rows_from, unit_rows};

use crate::brackets::with_brackets;
use crate::items::with_enum;
use crate::names::with_names;
use crate::uses::{with_compound, with_enum_extension, with_extension, with_unit};
use dsl_tree::{Declaration, UnitDecl};
use osc_base::Fault;
use std::alloc::{AllocError, Global};
use type_heads::{Declarations, Heads, OwnType, PlacedDecl, TypeId, exponents};

fn with_unit_declaration(
    alloc: Global,
    first: Option<Fault>,
    heads: &Heads,
    unit: &UnitDecl,
) -> Result<Option<Fault>, AllocError>
    ensures { IfOk result (λ f. f ≡ first_from first (unit_rows heads.now unit.now)) }
{
    let bases = unit.bases.as_slice();
    let first = with_brackets(alloc, first, bases)?;
    let own = exponents(bases);
    Ok(with_unit(first, heads, unit, own))
}

/// Faults of the names that a declaration uses.
fn with_declaration(
    alloc: Global,
    first: Option<Fault>,
    heads: &Heads,
    declaration: &Declaration,
) -> Result<Option<Fault>, AllocError>
    ensures { IfOk result (λ f. f ≡ first_from first (declaration_rows heads.now (declaration_tree declaration.now))) }
{
    match declaration {
        Declaration::Physical(d) => with_brackets(alloc, first, d.bases.as_slice()),
        Declaration::Unit(d) => with_unit_declaration(alloc, first, heads, d),
        Declaration::Enum(_) => Ok(first),
        Declaration::Compound(d) => Ok(with_compound(first, heads, d)),
        Declaration::MemberExtension(d) => Ok(with_extension(first, heads, d)),
        Declaration::EnumExtension(d) => Ok(with_enum_extension(first, heads, d)),
    }
}

/// Faults of the names that declarations use.
pub fn with_declarations(
    alloc: Global,
    first: Option<Fault>,
    heads: &Heads,
    all: &[PlacedDecl<'_>],
) -> Result<Option<Fault>, AllocError>
    ensures { IfOk result (λ f. f ≡ first_from first (flat_map (declaration_rows heads.now) (trees all.now))) }
{
    let mut found = first;
    for placed in all {
        found = with_declaration(alloc, found, heads, placed.declaration)?;
    }
    Ok(found)
}

/// Faults of the members of a type that is an enum.
fn with_type<'a>(
    alloc: Global,
    first: Option<Fault>,
    own: OwnType<'a>,
    extensions: &[PlacedDecl<'a>],
) -> Result<Option<Fault>, AllocError>
    ensures { IfOk result (λ f. f ≡ first_from first (rows_of_type (seen_type own.entry) extensions.now)) }
{
    match own {
        OwnType::Enum(declared) => with_enum(alloc, first, declared.items.as_slice(), extensions),
        OwnType::Basic(_)
        | OwnType::Physical(_)
        | OwnType::Compound {
            file: _,
            index: _,
            decl: _,
        } => Ok(first),
    }
}

/// Faults of the members of all enums.
pub fn with_enums(
    alloc: Global,
    first: Option<Fault>,
    declarations: &Declarations<'_>,
) -> Result<Option<Fault>, AllocError>
    requires { AreGathered declarations.now }
    ensures { IfOk result (λ f. f ≡ first_from first (enum_rows_from (heads_of declarations.now) (all_of declarations.now) 0 (all_declared (all_of declarations.now)))) }
{
    let mut found = first;
    let mut number: u32 = 0;
    for own in declarations.types.as_slice() {
        let extensions = declarations.extensions(TypeId(number));
        found = with_type(alloc, found, *own, extensions)?;
        number += 1;
    }
    Ok(found)
}

/// The first fault of headings, but for types that depend on themselves.
pub fn first_name_fault(
    alloc: Global,
    declarations: &Declarations<'_>,
    heads: &Heads,
) -> Result<Option<Fault>, AllocError>
    requires { AreGathered declarations.now }
    ensures { IfOk result (λ f. f ≡ first_fault (rows_of_names heads.now declarations.now)) }
{
    let all = declarations.placed.as_slice();
    let first = with_names(alloc, None, all)?;
    let first = with_declarations(alloc, first, heads, all)?;
    with_enums(alloc, first, declarations)
}
