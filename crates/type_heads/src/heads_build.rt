//! The heads of all types of a program.

ghost use Rattle.std.specs.Prelude.{◌≡◌, ◌<◌, ◌^◌, [], length, map, slice_index_or, option_copied, IfOk};
ghost use Rattle.type_heads.specs.DeclaredTypes.{base_of, program_of, types_of};
ghost use Rattle.type_heads.specs.Placing.{seen_type};
ghost use Rattle.type_heads.specs.Seen.{kept_form};
ghost use Rattle.type_heads.specs.Gathered.{AreGathered, heads_of};
ghost use Rattle.type_heads.specs.HeadsGrouped.{form_grouped, head_grouped, heads_grouped};

use crate::brackets::exponents;
use crate::declarations::Declarations;
use crate::form::OwnForm;
use crate::numbering::Numbering;
use crate::own_type::{BasicType, OwnType};
use crate::{Head, TypeId};
use std::alloc::{AllocError, Global};
use units_si::osc_base::Text;

/// What a type is, with the extensions of an enum worked in.
fn own_form(
    alloc: Global,
    declarations: &Declarations<'_>,
    of: TypeId,
    own: &OwnType<'_>,
) -> Result<OwnForm, AllocError>
    requires { of < length declarations.now.added.items }
    ensures { IfOk result (λ form. kept_form form ≡ form_grouped (slice_index_or declarations.now.added.items of []) (seen_type own.now)) }
{
    Ok(match own {
        OwnType::Basic(basic) => basic.form(),
        OwnType::Physical(decl) => OwnForm::Physical(exponents(decl.bases.as_slice())),
        OwnType::Enum(decl) => OwnForm::Enum(Numbering::numbered(
            alloc,
            decl.items.as_slice(),
            declarations.extensions(of),
        )?),
        OwnType::Compound { decl, .. } => OwnForm::Compound(decl.kind),
    })
}

/// The type that a type inherits from.
fn own_base(declarations: &Declarations<'_>, own: &OwnType<'_>) -> Option<TypeId>
    requires { AreGathered declarations.now }
    ensures { result ≡ base_of (heads_of declarations.now) (seen_type own.now).body }
{
    match own.heir() {
        Some(heir) => declarations.meant(&heir.base),
        None => None,
    }
}

fn own_owner(alloc: Global, own: &OwnType<'_>) -> Result<Option<Text>, AllocError>
    ensures { IfOk result (λ owner. owner ≡ (seen_type own.now).head.owner) }
{
    match own.owner() {
        Some(owner) => Ok(Some(Text::copy(alloc, owner)?)),
        None => Ok(None),
    }
}

/// The head of a type, with the extensions of an enum worked in.
fn own_head(
    alloc: Global,
    declarations: &Declarations<'_>,
    of: TypeId,
    own: &OwnType<'_>,
) -> Result<Head, AllocError>
    requires gathered { AreGathered declarations.now }
    requires known { of < length declarations.now.added.items }
    ensures { IfOk result (λ head. head ≡ head_grouped (heads_of declarations.now) (slice_index_or declarations.now.added.items of []) (seen_type own.now)) }
{
    let form = own_form(alloc, declarations, of, own)?;
    let owner = own_owner(alloc, own)?;
    let name = Text::copy(alloc, own.name())?;
    Ok(Head::new(name, owner, form, own_base(declarations, own)))
}

/// The heads of all types.
pub fn own_heads(alloc: Global, declarations: &Declarations<'_>) -> Result<Vec<Head>, AllocError>
    requires { AreGathered declarations.now }
    ensures heads { IfOk result (λ heads. heads.items ≡ heads_grouped (heads_of declarations.now) declarations.now.added.items 0 (map seen_type declarations.now.types.items)) }
    ensures few { IfOk result (λ heads. length heads.items < 2 ^ 32) }
{
    let mut heads = Vec::new(alloc);
    let mut number: u32 = 0;
    for own in declarations.types.as_slice() {
        heads.push(own_head(alloc, declarations, TypeId(number), own)?)?;
        number += 1;
    }
    Ok(heads)
}
