//! The units of a program.

ghost use Rattle.std.specs.Prelude.{◌≡◌, ◌++◌, flat_map, IfOk, OnOk};
ghost use Rattle.type_heads.specs.Units.{unit_of};
ghost use Rattle.type_heads.specs.Gathered.{all_of};
ghost use Rattle.type_heads.specs.UnitsPlaced.{units_in, units_placed};

use crate::brackets::exponents;
use crate::decimals::{factor, offset};
use crate::declarations::Declarations;
use crate::entries::UnitEntry;
use crate::placed::PlacedDecl;
use name_scope::dsl_tree::{Declaration, UnitDecl};
use std::alloc::{AllocError, Global};
use units_si::osc_base::Text;

fn unit_entry(alloc: Global, decl: &UnitDecl) -> Result<UnitEntry, AllocError>
    ensures { IfOk result (λ unit. unit ≡ unit_of decl.now) }
{
    let exponents = exponents(decl.bases.as_slice());
    let factor = factor(decl.factor);
    let offset = offset(decl.offset);
    let name = Text::copy(alloc, decl.name.text.as_str())?;
    Ok(UnitEntry::new(name, exponents, factor, offset))
}

fn push_unit(
    alloc: Global,
    units: &mut Vec<UnitEntry>,
    placed: PlacedDecl<'_>,
) -> Result<(), AllocError>
    ensures { OnOk result (units.new.items ≡ units.old.items ++ units_placed placed.entry) }
{
    match placed.declaration {
        Declaration::Unit(decl) => {
            units.push(unit_entry(alloc, decl)?)?;
            Ok(())
        }
        Declaration::Physical(_)
        | Declaration::Enum(_)
        | Declaration::Compound(_)
        | Declaration::MemberExtension(_)
        | Declaration::EnumExtension(_) => Ok(()),
    }
}

/// The units of a program.
pub fn unit_entries(
    alloc: Global,
    declarations: &Declarations<'_>,
) -> Result<Vec<UnitEntry>, AllocError>
    ensures { IfOk result (λ units. units.items ≡ units_in (all_of declarations.now)) }
{
    units_among(alloc, declarations.placed.as_slice())
}

fn units_among(alloc: Global, placed: &[PlacedDecl<'_>]) -> Result<Vec<UnitEntry>, AllocError>
    ensures { IfOk result (λ units. units.items ≡ flat_map units_placed placed.now) }
{
    let mut units = Vec::new(alloc);
    for declaration in placed {
        push_unit(alloc, &mut units, *declaration)?;
    }
    Ok(units)
}
