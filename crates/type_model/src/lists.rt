//! The members of each type of a program, with what they are under.

ghost use Rattle.std.specs.Prelude.{◌≡◌, map, IfOk};
ghost use Rattle.string_texts.specs.type_heads.Bodied.{all_bodies};
ghost use Rattle.string_texts.specs.type_heads.DeclaredTypes.{program_of, types_of};
ghost use Rattle.string_texts.specs.type_heads.Gathered.{AreGathered, all_of};
ghost use Rattle.string_texts.specs.type_heads.HeadsGrouped.{all_heads};
ghost use Rattle.string_texts.specs.type_heads.Members.{members_of};
ghost use Rattle.string_texts.specs.type_heads.Table.{all_types};
ghost use Rattle.type_tables.specs.type_members.Listed.{lists_of};

use crate::parts::Bodies;
use std::alloc::{AllocError, Global};
use string_texts::{Declarations, Heads, Program};
use type_tables::MemberLists;

/// The members of each type that is declared.
fn declared_lists<'a>(
    alloc: Global,
    declarations: &Declarations<'a>,
    heads: &Heads,
) -> Result<MemberLists<'a>, AllocError>
    requires gathered { AreGathered declarations.now }
    ensures { IfOk result (λ lists. lists_of lists ≡ map (members_of heads.now (all_bodies (all_of declarations.now))) (all_types heads.now)) }
{
    let bodies = Bodies::of(alloc, declarations, heads)?;
    MemberLists::build(alloc, heads, bodies.entries.as_slice(), &bodies.subtypes)
}

/// The members of each type of a program, each with its text, its holder, and all conditional subtypes that it is under.
///
/// Ask for them only if the headings have no fault: types that inherit from themselves have very long lists.
pub fn member_lists<'a>(alloc: Global, program: &'a Program) -> Result<MemberLists<'a>, AllocError>
    ensures { IfOk result (λ lists. lists_of lists ≡ (types_of (program_of program.now)).members) }
{
    let declarations = Declarations::of(alloc, program)?;
    let heads = Heads::of(alloc, &declarations)?;
    declared_lists(alloc, &declarations, &heads)
}
