//! The members of each type of a program, with what they are under.

ghost use Rattle.std.specs.Prelude.{◌≡◌, None, IfOk, map};
ghost use Rattle.type_members.specs.name_scope.FileNumbers.{wanted_name};
ghost use Rattle.type_members.specs.type_heads.Bodied.{seen_body};
ghost use Rattle.type_members.specs.type_heads.DeclaredTypes.{program_of, types_of};
ghost use Rattle.type_members.specs.type_heads.Gathered.{AreGathered, all_of};
ghost use Rattle.type_members.specs.type_heads.Members.{members_of};
ghost use Rattle.type_members.specs.type_heads.Table.{all_types};
ghost use Rattle.type_members.specs.Listed.{lists_of};
ghost use Rattle.program_members.specs.MembersOf.{AreDeclaredMembers, AreMembersOf};

use crate::library::library_of;
use std::alloc::{AllocError, Global};
use type_heads::{Body, Declarations, Heads, Program, bodies};
use type_members::{MemberLists, Subtypes};

/// The bodies and the members of the types of a program, and the number of the library's file.
#[derive(Drop)]
pub struct ProgramMembers<'a> {
    pub library: Option<u32>,
    pub bodies: Vec<Body<'a>>,
    pub lists: MemberLists<'a>,
}

impl<'a> ProgramMembers<'a> {
    /// Those of a program all of whose files were added.
    ///
    /// Ask for them only if its headings have no fault: types that inherit from themselves have very long lists.
    pub fn of(alloc: Global, program: &'a Program) -> Result<ProgramMembers<'a>, AllocError>
        requires whole { wanted_name program.now ≡ None }
        ensures { IfOk result (AreMembersOf (types_of (program_of program.now))) }
    {
        let declarations = Declarations::of(alloc, program)?;
        let heads = Heads::of(alloc, &declarations)?;
        declared_members(alloc, &declarations, &heads, library_of(program))
    }
}

/// The bodies and the members of the types that are declared.
fn declared_members<'a>(
    alloc: Global,
    declarations: &Declarations<'a>,
    heads: &Heads,
    library: Option<u32>,
) -> Result<ProgramMembers<'a>, AllocError>
    requires { AreGathered declarations.now }
    ensures { IfOk result (AreDeclaredMembers (all_of declarations.now) heads.now library) }
{
    let bodies = bodies(alloc, declarations)?;
    let lists = listed(alloc, heads, bodies.as_slice())?;
    Ok(ProgramMembers {
        library,
        bodies,
        lists,
    })
}

/// The members of types with these heads and bodies.
fn listed<'a>(
    alloc: Global,
    heads: &Heads,
    bodies: &[Body<'a>],
) -> Result<MemberLists<'a>, AllocError>
    ensures { IfOk result (λ lists. lists_of lists ≡ map (members_of heads.now (map seen_body bodies.now)) (all_types heads.now)) }
{
    let subtypes = Subtypes::build(alloc, heads, bodies)?;
    MemberLists::build(alloc, heads, bodies, &subtypes)
}
