//! The first fault of uses, given the bodies and the members of all types.

ghost use Rattle.std.specs.Prelude.{◌≡◌, map, IfOk};
ghost use Rattle.osc_base.specs.FaultRows.{first_fault};
ghost use Rattle.expr_nodes.specs.type_heads.Bodied.{seen_body};
ghost use Rattle.expr_nodes.specs.type_heads.Types.{Types as TypesOf};
ghost use Rattle.program_fields.specs.type_members.Listed.{lists_of};
ghost use Rattle.program_calls.specs.composition.Uses.{use_rows};
ghost use Rattle.program_uses.specs.SeenTexts.{HasTextsOf, Tells};

use crate::invocations::with_invocations;
use crate::program_texts::ProgramTexts;
use crate::texts::with_texts;
use expr_nodes::Types;
use osc_base::Fault;
use program_fields::ProgramFields;
use std::alloc::{AllocError, Global};
use type_members::{Body, MemberLists};

/// The fields, the `do` and the body of each type.
fn texts_of<'a>(
    alloc: Global,
    library: Option<u32>,
    bodies: &'a [Body<'a>],
    lists: &'a MemberLists<'a>,
) -> Result<ProgramTexts<'a>, AllocError>
    ensures { IfOk result (λ t. (ts : TypesOf) → library ≡ ts.library → map seen_body bodies.entry.now ≡ ts.bodies → lists_of lists.entry.now ≡ ts.members → HasTextsOf ts t) }
{
    let fields = ProgramFields::build(alloc, lists)?;
    let dos = fields.all_dos(alloc)?;
    Ok(ProgramTexts {
        library,
        fields,
        dos,
        bodies,
    })
}

/// The first fault of all uses.
fn first_of_all(
    alloc: Global,
    types: &Types,
    texts: &ProgramTexts<'_>,
) -> Result<Option<Fault>, AllocError>
    ensures { IfOk result (λ f. (ts : TypesOf) → Tells ts types.now texts.now → f ≡ first_fault (use_rows ts)) }
{
    let written = with_texts(alloc, types, texts, None)?;
    with_invocations(alloc, types, texts, written)
}

/// The first fault of all uses, given the number of the library's file, the bodies and the members of all types.
pub fn first_use_fault(
    alloc: Global,
    types: &Types,
    library: Option<u32>,
    bodies: &[Body<'_>],
    lists: &MemberLists<'_>,
) -> Result<Option<Fault>, AllocError>
    ensures { IfOk result (λ f. (ts : TypesOf) → types.now.table ≡ ts.table → library ≡ ts.library → map seen_body bodies.now ≡ ts.bodies → lists_of lists.now ≡ ts.members → f ≡ first_fault (use_rows ts)) }
{
    let texts = texts_of(alloc, library, bodies, lists)?;
    first_of_all(alloc, types, &texts)
}
